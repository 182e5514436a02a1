// The trait of all units.
use crate::aborts::put_aborts;
use ff_port::{End, Ports, Step};
use ff_rec::Record;

// So many times one or two steps are made at once at most.
const MOST_AT_ONCE: u32 = 1024;

/// A unit of a network: it takes messages at its ins and puts messages at its outs, one at a time.
pub trait Unit: Drop {
    ghost use Rattle.std.specs.Prelude.{◌≡◌, ◌⊎◌, ◌<◌, ℕ, List, true, [], ◌∷◌, replicate, slice_index};
    ghost use Rattle.ff_rec.specs.declared.msg.Msg.TheVariants.{Abort as AbortMsg};
    ghost use Rattle.ff_node.specs.Runs.{Message, FitsWhole};
    ghost use Rattle.ff_unit.specs.Units.{Doing, IsUnit, Ran, One, StepsOnce, StepsThrough, StepsOn, WaitsOnly, EndedOnly};
    ghost use Rattle.ff_unit.specs.Units.{known, end_of, HandsReject, HasRejects, TookAbort, StaysAt, ShortOnly};

    /// What it does, by what is seen of it.
    ghost does: { Doing Self };

    /// One step, without what follows from the whole run: call `step`.
    fn step_once<P: Ports<Record>>(&mut self, ports: &mut P) -> Step
        requires { does.Ready self.old (P.gots ports.old) (P.puts ports.old) }
        ensures once { StepsOnce does P.Ports self.old ports.old result self.new ports.new }
        ensures again { does.done self.old ≡ true
            → StaysAt P.Ports self.old ports.old self.new ports.new };

    /// One step, or two that move, without what follows from the whole run: call `step_on`. A unit may put at once what it sends for a
    /// message that it takes, which spares that the way through what it holds.
    #[inline(always)]
    fn step_through<P: Ports<Record>>(&mut self, ports: &mut P) -> Step
        requires { Ran does self.old (P.gots ports.old) (P.puts ports.old) }
        ensures { StepsThrough does P.Ports self.old ports.old result self.new ports.new }
    {
        self.step_once(ports)
    }

    /// What being told to abort makes of a unit whose outs were each given Abort: call `abort`.
    fn end_aborted(&mut self)
        requires { self.old ≡ does.opening self.old }
        ensures { self.new ≡ does.aborted self.old };

    /// Takes out the first reject that it holds, without what follows of the run: call `take_reject`.
    fn take_kept(&mut self) -> Option<Record>
        ensures { HandsReject does self.old result self.new };

    /// How it ended, once it has.
    fn end(&self) -> Option<End>
        ensures { result ≡ end_of does self.now };

    /// How many records it rejected, up to 2^64 - 1.
    fn rejected(&self) -> u64
        ensures { result ≡ does.rejects self.now };

    /// What holds of all that it does.
    ghost sound: { IsUnit does };

    /// One step: it puts the first message that it holds, or else takes one, or flushes its outs and ends. By Abort it ends only
    /// where it took one or `abort` was called.
    #[inline(always)]
    final fn step<P: Ports<Record>>(&mut self, ports: &mut P) -> Step
        requires { Ran does self.old (P.gots ports.old) (P.puts ports.old) }
        ensures one { One does self.old (P.gots ports.old) (P.puts ports.old)
            result self.new (P.gots ports.new) (P.puts ports.new) }
        ensures ran { Ran does self.new (P.gots ports.new) (P.puts ports.new) }
        ensures start { does.opening self.new ≡ does.opening self.old }
        ensures taken { does.taken self.new ≡ does.taken self.old }
        ensures told { does.told self.new ≡ does.told self.old }
        ensures link { P.link ports.new ≡ P.link ports.old }

        // The ports saw what they may at any moment, and where it ended by Eos, whole lists that it fits.
        ensures begins { does.Begins self.new (P.gots ports.new) (P.puts ports.new) }
        ensures fits { result ≡ Step.Ended End.Eos
            → FitsWhole (does.Fits self.new) (P.gots ports.new) (P.puts ports.new) }
        ensures rejects { result ≡ Step.Ended End.Eos
            → HasRejects does self.new (P.gots ports.new) }
        ensures aborts { result ≡ Step.Ended End.Abort
            → (does.told self.new ≡ true) ⊎ TookAbort (P.gots ports.new) }

        // By Memory it ends only where a call was refused some: in this step, or in one before.
        ensures memory { result ≡ Step.Ended End.Memory → does.short self.new ≡ true }
        ensures short { ShortOnly does P.grows self.old self.new }

        ensures waits { WaitsOnly does self.old result
            (known (P.knowns ports.old) (P.rooms ports.old) (P.waiting ports.old))
            (known (P.knowns ports.new) (P.rooms ports.new) (P.waiting ports.new)) }
        ensures ended { EndedOnly does self.old result self.new (P.waiting ports.new) }
        ensures again { does.done self.old ≡ true
            → StaysAt P.Ports self.old ports.old self.new ports.new }
    {
        self.step_once(ports)
    }

    /// Steps on while it moves, 2,048 times at most: a thread that asks for many steps at once chooses once what the unit is. The
    /// answer is that of the last step; but where it moved and waits then, it is that it moved.
    #[inline(never)]
    final fn step_on<P: Ports<Record>>(&mut self, ports: &mut P) -> Step
        requires { Ran does self.old (P.gots ports.old) (P.puts ports.old) }
        ensures steps { StepsOn does self.old (P.gots ports.old) (P.puts ports.old)
            result self.new (P.gots ports.new) (P.puts ports.new) (P.waiting ports.new) }
        ensures waits { WaitsOnly does self.old result
            (known (P.knowns ports.old) (P.rooms ports.old) (P.waiting ports.old))
            (known (P.knowns ports.new) (P.rooms ports.new) (P.waiting ports.new)) }
        ensures short { ShortOnly does P.grows self.old self.new }
        ensures link { P.link ports.new ≡ P.link ports.old }
    {
        for k in 0..MOST_AT_ONCE {
            match self.step_through(ports) {
                Step::Moved => {}
                Step::Waits if k > 0 => return Step::Moved,
                answer => return answer,
            }
        }
        Step::Moved
    }

    /// Tells a unit that made no step to end: it puts Abort on each out.
    final fn abort<P: Ports<Record>>(&mut self, ports: &mut P)
        requires made { does.Made self.old }
        requires fresh { self.old ≡ does.opening self.old }
        requires gots { P.gots ports.old ≡ replicate (does.ins self.old) [] }
        requires puts { P.puts ports.old ≡ replicate (does.outs self.old) [] }
        requires room { (k : ℕ) → k < does.outs self.old → 0 < slice_index (P.rooms ports.old) k }
        ensures ended { self.new ≡ does.aborted self.old }
        ensures gots { P.gots ports.new ≡ P.gots ports.old }
        ensures puts { P.puts ports.new ≡ replicate (does.outs self.old) (AbortMsg ∷ []) }
        ensures ran { Ran does self.new (P.gots ports.new) (P.puts ports.new) }
        ensures link { P.link ports.new ≡ P.link ports.old }
    {
        put_aborts(ports);
        self.end_aborted();
    }

    /// The first reject that it holds, which is taken out.
    final fn take_reject(&mut self) -> Option<Record>
        ensures taken { HandsReject does self.old result self.new }
        ensures start { does.opening self.new ≡ does.opening self.old }
        ensures ran { (gots puts : List (List Message))
            → Ran does self.old gots puts → Ran does self.new gots puts }
    {
        self.take_kept()
    }
}
