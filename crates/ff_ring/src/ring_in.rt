// The reading end of a ring.
ghost use Rattle.std.specs.Prelude.{◌≡◌, ◌<◌, ◌≤◌, IsTrue};
ghost use Rattle.std.specs.List.{flat_map};
ghost use Rattle.std.proofs.Common.{deque_items, deque_capacity};
ghost use Rattle.rtrb.specs.Ring.{received};
ghost use Rattle.ff_ring.specs.Bundles.{EndsWith};

use crate::bundle::Bundle;
use crate::inlet::Inlet;
use ff_port::Inbox;
use ff_rec::Msg;

/// The reading end of a ring. It opens one bundle after another, and gives an emptied block back as it opens the next. The
/// writer is told of the blocks that came back, and in any case where nothing is left to take.
pub struct RingIn<T> {
    pub(crate) inlet: Inlet<T>,
    pub(crate) bundle: Bundle<T>,
    eager: bool,
    ghost roomy: { 0 < deque_capacity bundle },
    // The bundle that is open came last.
    ghost rest: { EndsWith bundle.items (flat_map deque_items (received inlet.end)) },
}

// By hand, so that letting an end go is one call for what holds it.
impl<T: Drop> Drop for RingIn<T> {
    fn drop(self) {
        let RingIn {
            inlet,
            bundle,
            eager: _,
        } = self;
        drop(inlet);
        drop(bundle);
    }
}

impl<T> RingIn<T> {
    ghost use Rattle.std.specs.Prelude.{◌∷◌, ◌++◌, [], length, true, ◌↔◌};
    ghost use Rattle.rtrb.specs.Ring.{known_items, consumer_capacity};
    ghost use Rattle.ff_ring.specs.Ends.{got_of, known_of, there_of, untold_in, is_eager_in, read_ring};

    /// An end that is eager, that nothing reached, with an empty block.
    pub(crate) fn new(inlet: Inlet<T>, bundle: Bundle<T>) -> RingIn<T>
        requires roomy { 0 < deque_capacity bundle }
        requires empty { bundle.items ≡ [] }
        requires none { received inlet.end ≡ [] }
        ensures inlet { result.inlet ≡ inlet }
        ensures bundle { result.bundle ≡ bundle }
        ensures eager { IsTrue (is_eager_in result) }
    {
        RingIn {
            inlet,
            bundle,
            eager: true,
        }
    }

    /// Whether the writer is told of each block that comes back, which it is until an end is told otherwise. By one that
    /// isn't eager it is told of those of half a ring at once, and where nothing is left to take.
    pub fn set_eager(&mut self, eager: bool)
        ensures link { read_ring self.new ≡ read_ring self.old }
        ensures got { got_of self.new ≡ got_of self.old }
        ensures there { there_of self.new ≡ there_of self.old }
        ensures eager { is_eager_in self.new ≡ eager }
    {
        self.eager = eager;
    }

    /// Whether the ring has one slot.
    pub fn is_single(&self) -> bool
        ensures { IsTrue result ↔ (consumer_capacity self.now.inlet.end ≡ 1) }
    {
        self.inlet.end.capacity() == 1
    }

    /// Opens the next bundle.
    #[inline(never)]
    pub(crate) fn open_next(&mut self)
        requires known { 0 < length (known_items self.old.inlet.end) }
        requires empty { self.old.bundle.items ≡ [] }
        ensures link { read_ring self.new ≡ read_ring self.old }
        ensures got { got_of self.new ≡ got_of self.old }
        ensures there { there_of self.new ≡ there_of self.old }
        ensures some { 0 < length self.new.bundle.items }
        ensures eager { is_eager_in self.new ≡ is_eager_in self.old }
        ensures eager_told { IsTrue (is_eager_in self.old) → untold_in self.new ≡ 0 }
    {
        self.inlet.take_over(&mut self.bundle, self.eager);
    }

    /// Whether nothing is left of what is known to be there. The next bundle is opened where the one that is open is
    /// empty.
    pub(crate) fn is_drained(&mut self) -> bool
        ensures link { read_ring self.new ≡ read_ring self.old }
        ensures got { got_of self.new ≡ got_of self.old }
        ensures there { there_of self.new ≡ there_of self.old }
        ensures none { IsTrue result ↔ (there_of self.new ≡ []) }
        ensures eager { is_eager_in self.new ≡ is_eager_in self.old }
    {
        if !self.bundle.is_empty() {
            return false;
        }
        if self.inlet.end.cached_slots() == 0 {
            return true;
        }
        self.open_next();
        false
    }

    // Opens the next bundle where the one that is open is empty. Where there is none, the writer is told of all that came back.
    #[inline(always)]
    fn look(&mut self)
        ensures link { read_ring self.new ≡ read_ring self.old }
        ensures got { got_of self.new ≡ got_of self.old }
        ensures none { self.new.bundle.items ≡ []
            → (known_of self.old ≡ 0) × (known_of self.new ≡ 0) }
        ensures told { self.new.bundle.items ≡ [] → untold_in self.new ≡ 0 }
        ensures eager { is_eager_in self.new ≡ is_eager_in self.old }
        ensures eager_told { IsTrue (is_eager_in self.old) → untold_in self.new ≤ untold_in self.old }
    {
        if self.bundle.is_empty() {
            if self.inlet.end.is_empty() {
                self.tell();
            } else {
                self.open_next();
            }
        }
    }
}

impl<T> Inbox<T> for RingIn<T> {
    ghost use Rattle.std.specs.Prelude.{None};
    ghost use Rattle.ff_port.specs.Channels.{Takes};
    ghost use Rattle.ff_ring.specs.Names.{RingName};
    ghost use Rattle.ff_ring.specs.Ends.{got_of, known_of, there_of, untold_in, is_eager_in, read_ring};

    ghost got = { λ inn. got_of inn };

    ghost known = { λ inn. known_of inn };

    ghost Link = { RingName };

    ghost link = { λ inn. read_ring inn };

    #[inline(always)]
    fn try_take(&mut self) -> Option<Msg<T>>
        ensures link { read_ring self.new ≡ read_ring self.old }
        ensures takes { Takes (got_of self.old) (known_of self.old) result (got_of self.new) (known_of self.new) }
        ensures told { result ≡ None → untold_in self.new ≡ 0 }
        ensures eager { is_eager_in self.new ≡ is_eager_in self.old }
        ensures eager_told { IsTrue (is_eager_in self.old) → untold_in self.new ≤ untold_in self.old }
    {
        self.look();
        self.bundle.pop_front()
    }

    fn tell(&mut self)
        ensures link { read_ring self.new ≡ read_ring self.old }
        ensures got { got_of self.new ≡ got_of self.old }
        ensures known { known_of self.new ≡ known_of self.old }
        ensures there { there_of self.new ≡ there_of self.old }
        ensures told { untold_in self.new ≡ 0 }
        ensures eager { is_eager_in self.new ≡ is_eager_in self.old }
    {
        self.inlet.writer.tell();
    }
}
