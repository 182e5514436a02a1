// Segments that come back.
ghost use Rattle.std.specs.Prelude.{◌≡◌, ◌<◌, ◌≤◌, [], IfOk};
ghost use Rattle.ff_rec.specs.Streams.{IsOpen};
ghost use Rattle.ff_ring.specs.Ends.{put_of, got_of, held_of, HasFill, written_ring, read_ring};
ghost use Rattle.ff_chain.specs.Props.{IsOpen-prop, RingName-set};

use ff_rec::NoMemory;
use ff_ring::{Bell, RingIn, RingOut, ring};
use std::alloc::Global;
use std::sync::Arc;

/// Both ends of a segment of which all was taken.
#[derive(Drop)]
pub(crate) struct Blank<T> {
    pub(crate) out: RingOut<T>,
    pub(crate) inn: RingIn<T>,
    ghost pair: { read_ring inn ≡ written_ring out } by { RingName-set (read_ring inn) (written_ring out) },
    ghost taken: { got_of inn ≡ put_of out },
    ghost held: { held_of out ≡ [] },
    ghost inner: { IsOpen (put_of out) } by { IsOpen-prop (put_of out) },
    ghost fill: { HasFill out },
}

impl<T: Drop> Blank<T> {
    ghost use Rattle.ff_ring.specs.Ends.{hands_out, known_of};

    /// A new segment of so many slots.
    pub(crate) fn new(
        alloc: Global,
        cap: usize,
        writer: Arc<Bell, Global>,
        reader: Arc<Bell, Global>,
    ) -> Result<Blank<T>, NoMemory>
        requires some { 2 ≤ cap }
        requires most { cap ≤ 4097 }
        ensures free { IfOk result (λ b. 1 < hands_out b.out) }
        ensures known { IfOk result (λ b. known_of b.inn ≡ 0) }
    {
        let (out, inn) = ring(alloc, cap, writer, reader)?;
        Ok(Blank { out, inn })
    }

    /// Whether the next use of the segment is eager.
    pub(crate) fn set_eager(&mut self, eager: bool)
        ensures { hands_out self.new.out ≡ hands_out self.old.out }
    {
        self.out.set_eager(eager);
    }
}
