// What the network sends, held until its end. It is as long as there are keys, so a few lines.
ghost use Rattle.std.specs.Prelude.{◌≡◌, ◌<◌, ◌≤◌, Some, length, IfOk};
ghost use Rattle.std.specs.Io.KnownBytes.{WriteAppends};
ghost use Rattle.ff_io.specs.Faults.{HasCause, count_after};
ghost use Rattle.ff_soak.specs.Outside.{opened_held};

use ff_io::{Failed, Sink};
use std::alloc::Global;
use std::marker::Model;

/// A sink that holds what it takes. It fails only where memory is wanting.
#[derive(Drop)]
pub(crate) struct HeldSink {
    bytes: Vec<u8>,
    faults: u64,
}

impl Model for HeldSink {
    ghost use Rattle.ff_soak.specs.Outside.{Held};

    ghost Value = { Held };

    ghost view = { λ s. record { bytes = s.bytes.items; faults = s.faults } };
}

impl HeldSink {
    /// A sink that took nothing.
    pub(crate) fn new(alloc: Global) -> HeldSink
        ensures { result ≡ opened_held }
    {
        HeldSink {
            bytes: Vec::new(alloc),
            faults: 0,
        }
    }

    /// The bytes that it took.
    pub(crate) fn taken(&self) -> &[u8]
        ensures { result.now ≡ self.now.bytes }
    {
        self.bytes.as_slice()
    }
}

impl Sink for HeldSink {
    ghost taken = { λ s. Some s.bytes };

    ghost faults = { λ s. s.faults };

    fn write(&mut self, piece: &[u8]) -> Result<usize, Failed>
        requires { 0 < length piece.now }
        ensures some { IfOk result (λ n. 0 < n) }
        ensures within { IfOk result (λ n. n ≤ length piece.now) }
        ensures bytes { WriteAppends (Some self.old.bytes) (Some self.new.bytes) result piece.now }
        ensures cause { HasCause self.old.faults self.new.faults result }
        ensures counts { self.new.faults ≡ count_after self.old.faults result }
    {
        match self.bytes.extend_from_slice(piece) {
            Ok(()) => Ok(piece.len()),
            Err(_) => {
                self.faults = self.faults.saturating_add(1);
                Err(Failed)
            }
        }
    }
}
