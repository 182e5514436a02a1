// How a runner of a node steps.
ghost use Rattle.std.specs.Prelude.{◌≡◌, ◌⊎◌, ◌<◌, [], true, false, Some, None, length};
ghost use Rattle.ff_rec.specs.Streams.{IsOpen, at};
ghost use Rattle.ff_port.specs.declared.answers.Step.TheVariants.{Moved, Waits};
ghost use Rattle.ff_unit.specs.StageParts.{led_by, TakesHeld};
ghost use Rattle.ff_unit.specs.StagePorts.{StageReady};
ghost use Rattle.ff_unit.specs.StageSteps.{behind_of};
ghost use Rattle.ff_unit.specs.StageUnit.{runner_does, stage_does};
ghost use Rattle.ff_unit.specs.Units.{Ran, StepsOnce, StepsThrough, StaysAt};

use super::NodeRunner;
use super::working::Working;
use crate::take_out;
use ff_node::Node;
use ff_port::{End, Ports, Put, Step};
use ff_rec::{Msg, Record};

impl<N: Node> NodeRunner<N> {
    /// One step: it puts the first message that it holds, or else takes one, or flushes its out and ends. Behind the sends of a
    /// record that the node takes and goes on after it holds a Mark, where `marks` says so.
    #[inline(always)]
    pub fn step<P: Ports<Record>>(&mut self, marks: bool, ports: &mut P) -> Step
        requires { StageReady self.old (P.gots ports.old) (P.puts ports.old) }
        ensures once { StepsOnce (runner_does N.does (behind_of marks)) P.Ports self.old ports.old
            result self.new ports.new }
        ensures again { self.old.done ≡ true
            → StaysAt P.Ports self.old ports.old self.new ports.new }
    {
        if let Some(m) = take_held(&mut self.refused, &mut self.working) {
            return put(marks, m, &mut self.refused, &mut self.working, ports);
        }
        match self.working.fin() {
            None => self.take_one(marks, ports),
            Some(fin) => self.finish(fin, ports),
        }
    }

    /// One step as of a stage, or two: what the node sends first for a message that it takes is put at once, if the out has room. So
    /// that goes from ring to ring without a way through what is held.
    #[inline(always)]
    pub fn step_through<P: Ports<Record>>(&mut self, ports: &mut P) -> Step
        requires ready { StageReady self.old (P.gots ports.old) (P.puts ports.old) }
        requires ran { Ran (stage_does N.does) self.old (P.gots ports.old) (P.puts ports.old) }
        ensures { StepsThrough (stage_does N.does) P.Ports self.old ports.old result self.new ports.new }
    {
        if let Some(m) = take_held(&mut self.refused, &mut self.working) {
            return put(false, m, &mut self.refused, &mut self.working, ports);
        }
        if let Some(fin) = self.working.fin() {
            return self.finish(fin, ports);
        }
        let Some(m) = ports.try_take(0) else {
            return Step::Waits;
        };
        self.working.receive(m, false);
        if let Some(r) = self.working.take_sent() {
            put(
                false,
                Msg::Item(r),
                &mut self.refused,
                &mut self.working,
                ports,
            );
        }
        Step::Moved
    }

    // Takes from the in.
    #[inline(always)]
    fn take_one<P: Ports<Record>>(&mut self, marks: bool, ports: &mut P) -> Step
        requires held { self.old.held ≡ [] }
        requires fin { self.old.fin ≡ None }
        requires one_in { length (P.gots ports.old) ≡ 1 }
        ensures { StepsOnce (runner_does N.does (behind_of marks)) P.Ports self.old ports.old
            result self.new ports.new }
    {
        match ports.try_take(0) {
            None => Step::Waits,
            Some(m) => {
                self.working.receive(m, marks);
                Step::Moved
            }
        }
    }

    // Flushes the out, and ends once nothing waits there.
    fn finish<P: Ports<Record>>(&mut self, fin: End, ports: &mut P) -> Step
        requires held { self.old.held ≡ [] }
        requires fin_is { self.old.fin ≡ Some fin }
        ensures once { StepsOnce (stage_does N.does) P.Ports self.old ports.old
            result self.new ports.new }
        ensures again { self.old.done ≡ true
            → StaysAt P.Ports self.old ports.old self.new ports.new }
    {
        if self.working.is_done() {
            return Step::Ended(fin);
        }
        if ports.flush() {
            self.working.finish();
            Step::Ended(fin)
        } else {
            Step::Waits
        }
    }
}

// The first message that is held, which is taken out.
#[inline(always)]
fn take_held<N: Node>(
    refused: &mut Option<Msg<Record>>,
    working: &mut Working<N>,
) -> Option<Msg<Record>>
    ensures refused { refused.new ≡ None }
    ensures taken { TakesHeld (led_by refused.old working.old).held result working.new.held }
    ensures rest { working.new ≡ record working.old { held = working.new.held } }
{
    if let Some(m) = take_out(refused) {
        return Some(m);
    }
    working.take_held()
}

// Puts a message, while no other is refused: where the out has no room, this one is.
#[inline(always)]
fn put<N: Node, P: Ports<Record>>(
    marks: bool,
    m: Msg<Record>,
    refused: &mut Option<Msg<Record>>,
    working: &mut Working<N>,
    ports: &mut P,
) -> Step
    requires empty { refused.old ≡ None }
    requires goes_on { working.old.done ≡ false }
    requires within { 0 < length (P.puts ports.old) }
    requires inner { IsOpen (at (P.puts ports.old) 0) }
    ensures once { StepsOnce (runner_does N.does (behind_of marks)) P.Ports (led_by (Some m) working.old) ports.old
        result (led_by refused.new working.new) ports.new }
    ensures answers { (result ≡ Moved) ⊎ (result ≡ Waits) }
    ensures waits { result ≡ Waits
        → StaysAt P.Ports (led_by (Some m) working.old) ports.old (led_by refused.new working.new) ports.new }
{
    match ports.try_put(0, m) {
        Put::Done => Step::Moved,
        Put::Full(m) => {
            *refused = Some(m);
            Step::Waits
        }
        Put::NoMemory(_) => {
            working.drop_held();
            Step::Moved
        }
    }
}
