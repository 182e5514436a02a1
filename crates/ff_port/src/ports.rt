// The numbered ends of one unit.
use crate::Put;
use ff_rec::Msg;

/// The ins and outs of one unit, each numbered from 0. A call acts at the one end that it names.
pub trait Ports<T> {
    ghost use Rattle.std.specs.Prelude.{◌≡◌, ◌↔◌, ◌<◌, ℕ, Bool, List, length, IsTrue};
    ghost use Rattle.ff_rec.specs.Streams.{IsOpen};
    ghost use Rattle.ff_rec.specs.declared.msg.Msg.{Msg};
    ghost use Rattle.ff_port.specs.Ends.{at, OthersStay, TakesAt, PutsAt};

    /// What was taken at each in.
    ghost gots: { Self → List (List (Msg T)) };

    /// What was put at each out.
    ghost puts: { Self → List (List (Msg T)) };

    /// How many messages are known to be there, at each in.
    ghost knowns: { Self → List ℕ };

    /// How much room is known, at each out.
    ghost rooms: { Self → List ℕ };

    /// How many messages wait to be handed over, at all outs together.
    ghost waiting: { Self → ℕ };

    /// Whether a put takes memory.
    ghost grows: { Bool };

    /// What the ends are paired with. No call changes it.
    ghost Link: { Type 0 };

    ghost link: { Self → Link };

    /// How many ins there are.
    fn ins(&self) -> usize
        ensures { result ≡ length (gots self.now) };

    /// How many outs there are.
    fn outs(&self) -> usize
        ensures { result ≡ length (puts self.now) };

    /// The next message at in `k`.
    fn try_take(&mut self, k: usize) -> Option<Msg<T>>
        requires { k < length (gots self.old) }
        ensures link { link self.new ≡ link self.old }
        ensures takes { TakesAt k (gots self.old) (knowns self.old) result
            (gots self.new) (knowns self.new) }
        ensures others { OthersStay k (knowns self.old) (knowns self.new) }
        ensures puts { puts self.new ≡ puts self.old }
        ensures rooms { rooms self.new ≡ rooms self.old }
        ensures waiting { waiting self.new ≡ waiting self.old };

    /// Puts a message at out `k`, or hands it back.
    fn try_put(&mut self, k: usize, m: Msg<T>) -> Put<T>
        requires within { k < length (puts self.old) }
        requires inner { IsOpen (at (puts self.old) k) }
        ensures link { link self.new ≡ link self.old }
        ensures puts { PutsAt grows k (puts self.old) (rooms self.old) m result
            (puts self.new) (rooms self.new) }
        ensures others { OthersStay k (rooms self.old) (rooms self.new) }
        ensures gots { gots self.new ≡ gots self.old }
        ensures knowns { knowns self.new ≡ knowns self.old };

    /// Hands over what waits at the outs, as far as there is room, and tells those behind the ins of what was taken. It answers
    /// whether nothing is left at the outs.
    fn flush(&mut self) -> bool
        ensures link { link self.new ≡ link self.old }
        ensures gots { gots self.new ≡ gots self.old }
        ensures puts { puts self.new ≡ puts self.old }
        ensures knowns { knowns self.new ≡ knowns self.old }
        ensures flushed { IsTrue result ↔ (waiting self.new ≡ 0) };

    /// Each in has its number of known messages.
    ghost knowns_length: { (p : Self) → length (knowns p) ≡ length (gots p) };

    /// Each out has its known room.
    ghost rooms_length: { (p : Self) → length (rooms p) ≡ length (puts p) };
}
