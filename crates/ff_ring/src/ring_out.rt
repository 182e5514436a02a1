// The writing end of a ring.
ghost use Rattle.std.specs.Prelude.{◌≡◌, ◌<◌, []};
ghost use Rattle.std.proofs.Common.{deque_capacity};
ghost use Rattle.rtrb.specs.Ring.{producer_capacity};

use crate::bundle::Bundle;
use crate::outlet::Outlet;
use ff_port::{Outbox, Put};
use ff_rec::Msg;

/// The writing end of a ring. It gathers messages and hands them over in bundles. Messages that wait here are handed
/// over by later puts and by `flush`.
pub struct RingOut<T> {
    pub(crate) outlet: Outlet<T>,
    pub(crate) bundle: Bundle<T>,
    eager: bool,
    ghost roomy: { 0 < deque_capacity bundle },
    // A ring of one slot holds one message, and not another in the bundle.
    ghost alone: { producer_capacity outlet.end ≡ 1 → bundle.items ≡ [] },
}

// By hand, so that letting an end go is one call for what holds it.
impl<T: Drop> Drop for RingOut<T> {
    fn drop(self) {
        let RingOut {
            outlet,
            bundle,
            eager: _,
        } = self;
        drop(outlet);
        drop(bundle);
    }
}

impl<T> RingOut<T> {
    ghost use Rattle.std.specs.Prelude.{◌+◌, ◌-◌, min, ◌∷◌, ◌++◌, ◌≤◌, ◌↔◌, ℕ, IsTrue, MatchBool};
    ghost use Rattle.ff_ring.specs.Outlets.{hands_of, slots_of};
    ghost use Rattle.ff_rec.specs.Streams.{IsOpenMsg};
    ghost use Rattle.ff_ring.specs.Ends.{put_of, held_of, room_of, waiting_of, untold_out, is_eager, written_ring, HasPlace, Gathers, IsMade, hands_out, HasFill, KeepsHands};

    /// An end that is eager, with an empty bundle.
    pub(crate) fn new(outlet: Outlet<T>, bundle: Bundle<T>) -> RingOut<T>
        requires roomy { 0 < deque_capacity bundle }
        requires empty { bundle.items ≡ [] }
        ensures outlet { result.outlet ≡ outlet }
        ensures bundle { result.bundle ≡ bundle }
        ensures eager { IsTrue (is_eager result) }
        ensures room { room_of result ≡ hands_of outlet + min 1 (slots_of outlet - 1) }
    {
        RingOut {
            outlet,
            bundle,
            eager: true,
        }
    }

    /// Whether a put hands over what waits as soon as the reader is seen to have taken all else, and the reader is told of
    /// each bundle, which an end does until it is told otherwise. One that isn't eager hands over full bundles and the end of
    /// the stream, and the rest at `flush`. It tells of three quarters of a ring at once, of the end, and at `flush`.
    pub fn set_eager(&mut self, eager: bool)
        ensures link { written_ring self.new ≡ written_ring self.old }
        ensures put { put_of self.new ≡ put_of self.old }
        ensures held { held_of self.new ≡ held_of self.old }
        ensures room { room_of self.new ≡ room_of self.old }
        ensures made { (cap : ℕ) → IsMade cap self.old → IsMade cap self.new }
        ensures fill { HasFill self.old → HasFill self.new }
        ensures hands { hands_out self.new ≡ hands_out self.old }
        ensures eager { is_eager self.new ≡ eager }
    {
        self.eager = eager;
    }

    /// Whether two bundles more can be handed over.
    #[inline(always)]
    pub fn has_spare(&mut self) -> bool
        ensures link { written_ring self.new ≡ written_ring self.old }
        ensures put { put_of self.new ≡ put_of self.old }
        ensures held { held_of self.new ≡ held_of self.old }
        ensures fill { HasFill self.old → HasFill self.new }
        ensures hands { hands_out self.old ≤ hands_out self.new }
        ensures value { IsTrue result ↔ (1 < hands_out self.new) }
    {
        self.outlet.has_two()
    }

    /// Whether the ring has one slot.
    pub fn is_single(&self) -> bool
        ensures { IsTrue result ↔ (slots_of self.now.outlet ≡ 1) }
    {
        self.outlet.is_single()
    }

    // Room for one message more: a full bundle is handed over. It answers whether there is room.
    #[inline(always)]
    fn make_room(&mut self) -> bool
        ensures link { written_ring self.new ≡ written_ring self.old }
        ensures put { put_of self.new ≡ put_of self.old }
        ensures room { room_of self.old ≤ room_of self.new }
        ensures eager { is_eager self.new ≡ is_eager self.old }
        ensures answer { MatchBool result (HasPlace self.new) (room_of self.new ≡ 0) }
        ensures hands { HasFill self.old → HasFill self.new × (hands_out self.old ≤ hands_out self.new) × (held_of self.new ≡ held_of self.old) }
        ensures eager_told { IsTrue (is_eager self.old) → untold_out self.new ≤ untold_out self.old }
    {
        if self.outlet.is_single() {
            return self.outlet.has_room();
        }
        if self.bundle.len() < self.bundle.capacity() {
            return true;
        }
        self.outlet.hand_over(&mut self.bundle, self.eager)
    }

    // Puts a message, and hands the bundle over where that is due.
    #[inline(always)]
    fn add(&mut self, m: Msg<T>)
        requires { HasPlace self.old }
        ensures link { written_ring self.new ≡ written_ring self.old }
        ensures put { put_of self.new ≡ put_of self.old ++ m ∷ [] }
        ensures room { room_of self.old ≤ room_of self.new + 1 }
        ensures eager { is_eager self.new ≡ is_eager self.old }
        ensures gathers { Gathers m self.new }
        ensures hands { KeepsHands self.old self.new }
        ensures fill { HasFill self.old → 0 < hands_out self.new → HasFill self.new }
        ensures told { ¬ IsOpenMsg m → waiting_of self.new ≡ 0 → untold_out self.new ≡ 0 }
        ensures eager_told { IsTrue (is_eager self.old) → untold_out self.new ≤ untold_out self.old }
    {
        let ends = matches!(m, Msg::Eos | Msg::Abort);
        self.bundle.push_back_reserved(m);
        let full = self.bundle.len() == self.bundle.capacity();
        if ends || full || self.outlet.is_due(self.eager) {
            self.outlet.hand_over(&mut self.bundle, self.eager || ends);
        }
    }
}

impl<T> Outbox<T> for RingOut<T> {
    ghost use Rattle.std.specs.Prelude.{◌↔◌, ◌≤◌, false, IsTrue, IsFalse};
    ghost use Rattle.ff_rec.specs.Streams.{IsOpen, IsOpenMsg};
    ghost use Rattle.ff_port.specs.Channels.{Puts};
    ghost use Rattle.ff_ring.specs.Names.{RingName};
    ghost use Rattle.ff_ring.specs.Ends.{put_of, room_of, waiting_of, untold_out, is_eager, written_ring, Gathers, hands_out, HasFill, KeepsHands};
    ghost use Rattle.std.specs.Prelude.{◌+◌, min};

    ghost put = { λ out. put_of out };

    ghost room = { λ out. room_of out };

    ghost waiting = { λ out. waiting_of out };

    ghost grows = { false };

    ghost Link = { RingName };

    ghost link = { λ out. written_ring out };

    // Always inline: a message that is handed on through memory is moved once more, and the processor waits for that.
    #[inline(always)]
    fn try_put(&mut self, m: Msg<T>) -> Put<T>
        requires { IsOpen (put_of self.old) }
        ensures link { written_ring self.new ≡ written_ring self.old }
        ensures puts { Puts false (put_of self.old) (room_of self.old) m result
            (put_of self.new) (room_of self.new) }
        ensures eager { is_eager self.new ≡ is_eager self.old }
        ensures gathers { Gathers m self.new }
        ensures hands { HasFill self.old → KeepsHands self.old self.new }
        ensures fill { HasFill self.old → 0 < hands_out self.new → HasFill self.new }
        ensures told { result ≡ Put.Done → ¬ IsOpenMsg m → waiting_of self.new ≡ 0 → untold_out self.new ≡ 0 }
        ensures eager_told { IsTrue (is_eager self.old) → untold_out self.new ≤ untold_out self.old }
    {
        if !self.make_room() {
            return Put::Full(m);
        }
        self.add(m);
        Put::Done
    }

    fn flush(&mut self) -> bool
        ensures link { written_ring self.new ≡ written_ring self.old }
        ensures puts { put_of self.new ≡ put_of self.old }
        ensures flushed { IsTrue result ↔ (waiting_of self.new ≡ 0) }
        ensures eager { is_eager self.new ≡ is_eager self.old }
        ensures room { room_of self.old ≤ room_of self.new }
        ensures no_room { IsFalse result → room_of self.new ≡ 0 }
        ensures hands { hands_out self.old ≤ hands_out self.new + min 1 (waiting_of self.old) }
        ensures fewer { waiting_of self.new ≤ waiting_of self.old }
        ensures fill { HasFill self.old → HasFill self.new }
        ensures told { untold_out self.new ≡ 0 }
    {
        let all = self.bundle.is_empty() || self.outlet.hand_over(&mut self.bundle, self.eager);
        self.outlet.reader.tell();
        all
    }
}
