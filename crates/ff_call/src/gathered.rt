// A message that is gathered before it is written.
ghost use Rattle.std.specs.Prelude.{◌≡◌, [], Some};

use ff_io::{Failed, Sink};

/// Gathers bytes in memory. It fails where it has no room left and memory for more is short.
#[derive(Drop)]
pub struct Gathered {
    bytes: Vec<u8>,
    faults: u64,
}

impl Gathered {
    /// Nothing is gathered yet. The room of `room` is used first, and what it holds is dropped.
    pub fn new(mut room: Vec<u8>) -> Gathered
        ensures { ⟦<Gathered as Sink>⟧.taken result ≡ Some [] }
    {
        room.clear();
        Gathered {
            bytes: room,
            faults: 0,
        }
    }

    /// What was gathered.
    pub fn bytes(&self) -> &[u8]
        ensures { ⟦<Gathered as Sink>⟧.taken self.now ≡ Some result.now }
    {
        &self.bytes
    }
}

impl Sink for Gathered {
    ghost use Rattle.std.specs.Prelude.{Some};

    ghost taken = { λ s. Some s.bytes.items };

    ghost faults = { λ s. s.faults };

    fn write(&mut self, piece: &[u8]) -> Result<usize, Failed> {
        match self.bytes.extend_from_slice(piece) {
            Ok(()) => Ok(piece.len()),
            Err(_) => {
                self.faults = self.faults.saturating_add(1);
                Err(Failed)
            }
        }
    }
}
