// How an ordered merge steps.
ghost use Rattle.std.specs.Prelude.{◌≡◌, ◌<◌, ◌≤◌, [], true, false, length};
ghost use Rattle.ff_port.specs.declared.answers.End.TheVariants.{Eos, Abort, Memory};
ghost use Rattle.ff_unit.specs.Closing.{IsLive, any_live};
ghost use Rattle.ff_unit.specs.Units.{StepsOnce, StaysAt};
ghost use Rattle.ff_order.specs.OMerges.{omerge_does, OMergeReady, omerge_ins};

use super::OMerge;
use ff_port::{Ports, Step};
use ff_rec::Record;
use ff_unit::{Mode, take_any};

impl OMerge {
    /// A step while nothing is held.
    pub(super) fn go_on<P: Ports<Record>>(&mut self, ports: &mut P) -> Step
        requires held { self.old.held ≡ [] }
        requires ready { OMergeReady self.old (P.gots ports.old) (P.puts ports.old) }
        ensures once { StepsOnce omerge_does P.Ports self.old ports.old result self.new ports.new }
        ensures again { self.old.done ≡ true
            → StaysAt P.Ports self.old ports.old self.new ports.new }
    {
        if !self.live.any() {
            return self.finish(ports);
        }
        match self.mode {
            Mode::Live => self.take_due(ports),
            Mode::Shut | Mode::Cut => self.take_rest(ports),
        }
    }

    // Takes from the in that is due.
    fn take_due<P: Ports<Record>>(&mut self, ports: &mut P) -> Step
        requires held { self.old.held ≡ [] }
        requires goes_on { any_live self.old.live ≡ true }
        requires live { self.old.mode ≡ Mode.Live }
        requires due { IsLive self.old.live self.old.due }
        requires within { self.old.due < length (P.gots ports.old) }
        requires flags { length self.old.live ≡ length (P.gots ports.old) }
        ensures { StepsOnce omerge_does P.Ports self.old ports.old result self.new ports.new }
    {
        let due = self.due;
        match ports.try_take(due) {
            None => Step::Waits,
            Some(m) => {
                self.receive(due, m);
                Step::Moved
            }
        }
    }

    // Takes from any in that still gives: the rest behind the last group, or behind a cut.
    fn take_rest<P: Ports<Record>>(&mut self, ports: &mut P) -> Step
        requires held { self.old.held ≡ [] }
        requires goes_on { any_live self.old.live ≡ true }
        requires flags { length self.old.live ≡ length (P.gots ports.old) }
        requires rest { self.old.mode ≡ Mode.Live → ⊥ }
        ensures { StepsOnce omerge_does P.Ports self.old ports.old result self.new ports.new }
    {
        match take_any(&self.live, self.due, ports) {
            None => Step::Waits,
            Some((k, m)) => {
                self.receive(k, m);
                Step::Moved
            }
        }
    }

    // Flushes the out, and ends once nothing waits there.
    fn finish<P: Ports<Record>>(&mut self, ports: &mut P) -> Step
        requires held { self.old.held ≡ [] }
        requires none { any_live self.old.live ≡ false }
        ensures once { StepsOnce omerge_does P.Ports self.old ports.old result self.new ports.new }
        ensures again { self.old.done ≡ true
            → StaysAt P.Ports self.old ports.old self.new ports.new }
    {
        if self.done {
            return Step::Ended(self.end);
        }
        if !ports.flush() {
            return Step::Waits;
        }
        self.done = true;
        Step::Ended(self.end)
    }
}
