// How a master steps.
ghost use Rattle.std.specs.Prelude.{◌≡◌, [], true, false, length, suc};
ghost use Rattle.ff_unit.specs.Closing.{any_live};
ghost use Rattle.ff_unit.specs.Units.{StepsOnce, StaysAt};
ghost use Rattle.ff_unit.specs.declared.mode.Mode.TheVariants.{Live};
ghost use Rattle.ff_loop.specs.Rounds.{workers_of};
ghost use Rattle.ff_loop.specs.WrapMasters.{wrap_does, IsSized, OwesOnly};

use super::WrapMaster;
use ff_port::{Ports, Step};
use ff_rec::Record;
use ff_unit::take_any;

impl WrapMaster {
    /// A step while nothing is held.
    pub(super) fn go_on<P: Ports<Record>>(&mut self, ports: &mut P) -> Step
        requires sized { IsSized self.old }
        requires held { self.old.held ≡ [] }
        requires owes { self.old.mode ≡ Live → OwesOnly self.old }
        requires ins { length (P.gots ports.old) ≡ suc (workers_of self.old.round) }
        requires done { self.old.done ≡ true → any_live self.old.live ≡ false }
        ensures once { StepsOnce wrap_does P.Ports self.old ports.old result self.new ports.new }
        ensures again { self.old.done ≡ true
            → StaysAt P.Ports self.old ports.old self.new ports.new }
    {
        if self.live.any() {
            self.take_one(ports)
        } else if self.done {
            Step::Ended(self.end)
        } else {
            self.finish(ports)
        }
    }

    // Takes from the first in that is to be read and gives something, and goes on to what is to be put.
    fn take_one<P: Ports<Record>>(&mut self, ports: &mut P) -> Step
        requires sized { IsSized self.old }
        requires held { self.old.held ≡ [] }
        requires owes { self.old.mode ≡ Live → OwesOnly self.old }
        requires ins { length (P.gots ports.old) ≡ suc (workers_of self.old.round) }
        requires goes_on { any_live self.old.live ≡ true }
        ensures { StepsOnce wrap_does P.Ports self.old ports.old result self.new ports.new }
    {
        match take_any(&self.live, 0, ports) {
            None => Step::Waits,
            Some((k, m)) => {
                self.receive(k, m);
                self.pull();
                Step::Moved
            }
        }
    }

    // Flushes the outs, and ends once nothing waits there.
    fn finish<P: Ports<Record>>(&mut self, ports: &mut P) -> Step
        requires held { self.old.held ≡ [] }
        requires none { any_live self.old.live ≡ false }
        requires goes_on { self.old.done ≡ false }
        ensures { StepsOnce wrap_does P.Ports self.old ports.old result self.new ports.new }
    {
        if ports.flush() {
            self.done = true;
            Step::Ended(self.end)
        } else {
            Step::Waits
        }
    }
}
