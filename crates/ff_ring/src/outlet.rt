// Where bundles leave the writer.
ghost use Rattle.std.specs.Prelude.{◌≡◌, ◌<◌, IsTrue, IsFalse, ◌↔◌};
ghost use Rattle.std.proofs.Common.{deque_len, deque_capacity};

use crate::Bell;
use crate::bundle::{Bundle, Emptied, Filled};
use crate::ringer::Ringer;
use rtrb::{Consumer, Producer};
use std::alloc::Global;
use std::mem;
use std::sync::Arc;

/// The writer's ends of both ways, the way to the bell of the reader's thread, and the bell of the writer's own.
#[derive(Drop)]
pub(crate) struct Outlet<T> {
    pub(crate) end: Producer<Bundle<T>, Global, Filled>,
    pub(crate) spares: Consumer<Bundle<T>, Global, Emptied>,
    pub(crate) reader: Ringer,
    pub(crate) writer: Arc<Bell, Global>,
}

impl<T> Outlet<T> {
    ghost use Rattle.std.specs.Prelude.{MatchBool};
    ghost use Rattle.ff_ring.specs.Outlets.{slots_of, hands_of, HandsOver, IsDue, Looks};
    ghost use Rattle.ff_ring.specs.Ringers.{Notes, told_of_bundles};

    /// Hands a bundle over and puts an empty block in its place. It answers whether there was room. The reader is told of it at
    /// once where that is asked for.
    #[inline(never)]
    pub(crate) fn hand_over(&mut self, bundle: &mut Bundle<T>, eager: bool) -> bool
        requires filled { 0 < deque_len bundle.old }
        requires roomy { 0 < deque_capacity bundle.old }
        ensures exchanged { HandsOver self.old bundle.old result self.new bundle.new }
        ensures told { MatchBool result (Notes eager (told_of_bundles (slots_of self.old)) self.old.reader self.new.reader)
            (self.new.reader ≡ self.old.reader) }
        ensures roomy { 0 < deque_capacity bundle.new }
    {
        if !self.has_room() {
            return false;
        }
        let Ok(spare) = self.spares.pop() else {
            return false;
        };
        let filled = mem::replace(bundle, spare);
        self.end.push_reserved(filled);
        // A quarter is left to the writer, which goes on while the reader wakes.
        let slots = self.end.capacity();
        let much = slots.saturating_sub((slots / 4).max(1));
        self.reader.note(eager, much);
        true
    }

    /// Whether a bundle could be handed over. Where none could, the thread says so at its bell and looks once more: whoever made room
    /// before that didn't see that it was wanted.
    pub(crate) fn has_room(&mut self) -> bool
        ensures looked { Looks self.old self.new }
        ensures reader { self.new.reader ≡ self.old.reader }
        ensures value { IsTrue result ↔ (0 < hands_of self.new) }
    {
        if self.sees_room() {
            return true;
        }
        self.writer.wants_room();
        self.sees_room()
    }

    /// Whether two bundles could be handed over.
    #[inline(always)]
    pub(crate) fn has_two(&mut self) -> bool
        ensures looked { Looks self.old self.new }
        ensures reader { self.new.reader ≡ self.old.reader }
        ensures value { IsTrue result ↔ (1 < hands_of self.new) }
    {
        (self.end.cached_slots() >= 2 || self.end.slots() >= 2)
            && (self.spares.cached_slots() >= 2 || self.spares.slots() >= 2)
    }

    fn sees_room(&mut self) -> bool
        ensures looked { Looks self.old self.new }
        ensures reader { self.new.reader ≡ self.old.reader }
        ensures value { IsTrue result ↔ (0 < hands_of self.new) }
    {
        !self.end.is_full() && !self.spares.is_empty()
    }

    /// Whether a bundle is to be handed over before it is full: in a ring of one slot, and by an eager writer where the
    /// reader is seen to have taken all.
    #[inline(always)]
    pub(crate) fn is_due(&mut self, eager: bool) -> bool
        ensures looked { Looks self.old self.new }
        ensures reader { self.new.reader ≡ self.old.reader }
        ensures value { IsTrue result ↔ IsDue eager self.new }
    {
        if !eager {
            return self.is_single();
        }
        self.is_single() || self.end.slots() == self.end.capacity()
    }

    /// Whether the ring has one slot.
    #[inline(always)]
    pub(crate) fn is_single(&self) -> bool
        ensures { IsTrue result ↔ (slots_of self.now ≡ 1) }
    {
        self.end.capacity() == 1
    }
}
