// One use of a segment, at its reader.
ghost use Rattle.std.specs.Prelude.{◌≡◌, []};
ghost use Rattle.ff_ring.specs.Ends.{got_of};
ghost use Rattle.ff_chain.specs.Since.{Begins};

use ff_port::Inbox;
use ff_rec::Msg;
use ff_ring::RingIn;
use std::snapshot::Snapshot;

/// The reading end of a segment, and how it stood as this use of it began.
#[derive(Drop)]
pub(crate) struct Reading<T> {
    pub(crate) inn: RingIn<T>,
    pub(crate) base: Snapshot<RingIn<T>>,
    ghost begun: { Begins (got_of base.value) (got_of inn) },
}

impl<T> Reading<T> {
    ghost use Rattle.ff_port.specs.Channels.{Takes};
    ghost use Rattle.ff_ring.specs.Ends.{known_of, read_ring};
    ghost use Rattle.ff_chain.specs.Uses.{got_in};

    /// A segment is read from here on.
    pub(crate) fn new(inn: RingIn<T>) -> Reading<T>
        ensures inn { result.inn ≡ inn }
        ensures base { result.base.value ≡ inn }
        ensures none { got_in result ≡ [] }
    {
        let base = Snapshot::of(&inn);
        Reading { inn, base }
    }

    /// Whether this use of the segment is eager.
    pub(crate) fn set_eager(&mut self, eager: bool)
        ensures ring { read_ring self.new.inn ≡ read_ring self.old.inn }
        ensures base { self.new.base ≡ self.old.base }
        ensures got { got_in self.new ≡ got_in self.old }
        ensures known { known_of self.new.inn ≡ known_of self.old.inn }
    {
        self.inn.set_eager(eager);
    }

    /// The next message of this segment.
    #[inline(always)]
    pub(crate) fn try_take(&mut self) -> Option<Msg<T>>
        ensures ring { read_ring self.new.inn ≡ read_ring self.old.inn }
        ensures base { self.new.base ≡ self.old.base }
        ensures takes { Takes (got_in self.old) (known_of self.old.inn) result (got_in self.new) (known_of self.new.inn) }
    {
        self.inn.try_take()
    }

    /// Tells the writer of the blocks that came back.
    pub(crate) fn tell(&mut self)
        ensures ring { read_ring self.new.inn ≡ read_ring self.old.inn }
        ensures base { self.new.base ≡ self.old.base }
        ensures got { got_in self.new ≡ got_in self.old }
        ensures known { known_of self.new.inn ≡ known_of self.old.inn }
    {
        self.inn.tell();
    }
}
