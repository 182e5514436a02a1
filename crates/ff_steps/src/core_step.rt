// One step of one party of a core.
ghost use Rattle.std.specs.Prelude.{◌≡◌, ◌<◌, ◌≤◌, ◌+◌, length};
ghost use Rattle.ff_steps.specs.Core.{IsSound};
ghost use Rattle.ff_steps.specs.Events.{CoreStep, Event};

use crate::net_core::Core;
use crate::unit_step::step_unit;
use ff_unit::Unit;

impl<U: Unit> Core<U> {
    /// One step of the party with this number: a unit, then the feeder, then the drainer. Any other number does nothing.
    pub(crate) fn step(&mut self, p: usize)
        ensures event { Event U.does p self.old self.new }
        ensures sound { IsSound U.does self.new }
    {
        let count = self.count();
        if p < count {
            self.step_unit(p);
        } else if p == count {
            self.step_feeder();
        } else if p == count + 1 {
            self.step_drainer();
        }
    }

    // How many units there are.
    fn count(&self) -> usize
        ensures count { result ≡ length self.now.units }
        ensures few { result ≤ 65536 }
        ensures sound { IsSound U.does self.now }
    {
        self.units.len()
    }

    // A unit steps.
    fn step_unit(&mut self, p: usize)
        requires { p < length self.old.units }
        ensures step { CoreStep U.does p self.old self.new }
        ensures sound { IsSound U.does self.new }
    {
        step_unit(&mut self.units, &mut self.edges, &self.rows, p);
    }

    // The feeder steps.
    fn step_feeder(&mut self)
        ensures step { CoreStep U.does (length self.old.units) self.old self.new }
        ensures sound { IsSound U.does self.new }
    {
        self.feeder.step(&mut self.edges);
    }

    // The drainer steps.
    fn step_drainer(&mut self)
        ensures step { CoreStep U.does (length self.old.units + 1) self.old self.new }
        ensures sound { IsSound U.does self.new }
    {
        self.drainer.step(&mut self.edges);
    }
}
