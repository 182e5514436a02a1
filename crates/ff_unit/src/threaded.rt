// Units as threads run them.
use crate::Unit;
use ff_port::{End, Ports, Step};
use ff_rec::Record;

/// A unit that a thread of its own runs: one of several kinds, which makes many steps as the kind that it is.
pub trait Threaded: Unit {
    ghost use Rattle.std.specs.Prelude.{◌≡◌, true};
    ghost use Rattle.ff_unit.specs.Units.{Ran, StepsOn, EndsAs, WaitsOnly, ShortOnly, known};

    /// Many steps, without what follows from the whole run: call `advance`.
    fn step_many<P: Ports<Record>>(&mut self, ports: &mut P) -> Step
        requires { Ran Self.does self.old (P.gots ports.old) (P.puts ports.old) }
        ensures steps { StepsOn Self.does self.old (P.gots ports.old) (P.puts ports.old)
            result self.new (P.gots ports.new) (P.puts ports.new) (P.waiting ports.new) }
        ensures waits { WaitsOnly Self.does self.old result
            (known (P.knowns ports.old) (P.rooms ports.old) (P.waiting ports.old))
            (known (P.knowns ports.new) (P.rooms ports.new) (P.waiting ports.new)) }
        ensures short { ShortOnly Self.does P.grows self.old self.new }
        ensures link { P.link ports.new ≡ P.link ports.old };

    /// Steps on while it moves, up to a number of steps that no clause tells. Where it moved and waits then, the answer is that it moved.
    #[inline(always)]
    final fn advance<P: Ports<Record>>(&mut self, ports: &mut P) -> Step
        requires { Ran Self.does self.old (P.gots ports.old) (P.puts ports.old) }
        ensures steps { StepsOn Self.does self.old (P.gots ports.old) (P.puts ports.old)
            result self.new (P.gots ports.new) (P.puts ports.new) (P.waiting ports.new) }
        ensures ran { Ran Self.does self.new (P.gots ports.new) (P.puts ports.new) }
        ensures start { Self.does.opening self.new ≡ Self.does.opening self.old }
        ensures taken { Self.does.taken self.new ≡ Self.does.taken self.old }
        ensures told { Self.does.told self.new ≡ Self.does.told self.old }
        ensures ended { EndsAs Self.does result self.new }
        ensures memory { result ≡ Step.Ended End.Memory → Self.does.short self.new ≡ true }
        ensures waits { WaitsOnly Self.does self.old result
            (known (P.knowns ports.old) (P.rooms ports.old) (P.waiting ports.old))
            (known (P.knowns ports.new) (P.rooms ports.new) (P.waiting ports.new)) }
        ensures short { ShortOnly Self.does P.grows self.old self.new }
        ensures link { P.link ports.new ≡ P.link ports.old }
    {
        self.step_many(ports)
    }
}
