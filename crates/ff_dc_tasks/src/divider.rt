// The scheduler of divide and conquer.
ghost use Rattle.std.specs.Prelude.{◌≡◌, ◌≤◌, [], IfOk, IsSome};
ghost use Rattle.ff_dc_tasks.specs.Paths.{IsInReach};
ghost use Rattle.ff_dc_tasks.specs.Dividers.{IsRight, IsOpened, TakesTask};

use crate::halves::Halves;
use crate::place::{Pair, Place};
use crate::walk::Walk;
use crate::{DcTask, RuleFunctions};
use ff_dc::{Four, Part};
use ff_loop::{Events, Scheduler};
use ff_rec::NoMemory;
use std::alloc::Global;
use std::marker::Model;

/// The tasks of a division. It divides as it goes: it holds the parts on the way to the next part
/// that isn't divided, and the values of parts that wait for those of the other half. Of a task
/// that is out it keeps nothing.
#[derive(Drop)]
pub struct Divider<F: RuleFunctions> {
    functions: F,
    walk: Walk,
    // The parts whose two parts have their values.
    ready: Vec<Pair>,
    halves: Halves,
    // How many tasks are out.
    out: u64,
    // The values of the whole, once they are back.
    values: Option<Four>,
    events: Events<DcTask, Four>,
}

impl<F: RuleFunctions> Model for Divider<F> {
    ghost use Rattle.ff_dc_tasks.specs.Dividers.{DividerState};

    ghost Value = { DividerState };

    ghost view = { λ d. record {
      rule = F.rule d.functions;
      walk = d.walk;
      ready = d.ready.items;
      halves = d.halves;
      out = d.out;
      values = d.values;
      events = d.events;
    } };
}

impl<F: RuleFunctions> Divider<F> {
    /// The tasks of this part, down to parts of at most `cut` places.
    pub fn new(alloc: Global, functions: F, whole: Part, cut: u32) -> Result<Divider<F>, NoMemory>
        requires cut { 1 ≤ cut }
        requires part { IsInReach (F.rule functions) cut whole }
        ensures { IfOk result (λ d. IsOpened (F.rule functions) cut whole d) }
    {
        Ok(Divider {
            functions,
            walk: Walk::new(alloc, whole, cut)?,
            ready: Vec::new(alloc),
            halves: Halves::new(alloc),
            out: 0,
            values: None,
            events: Events::new(),
        })
    }

    /// The values of the whole.
    pub fn values(&self) -> Four
        requires { IsSome self.now.values }
        ensures { self.now.values ≡ Some result }
    {
        self.values.unwrap()
    }

    // A part whose task can be given. A part whose two parts are done comes before one that isn't
    // divided, so that few values wait.
    fn take(&mut self) -> Option<(Place, DcTask)>
        requires { IsRight self.old }
        ensures { TakesTask self.old result self.new }
    {
        if let Some(pair) = self.ready.pop() {
            return Some((pair.place, pair.task()));
        }
        let (place, part) = self.walk.next_small(&self.functions)?;
        Some((
            place,
            DcTask::Seq {
                number: place.number,
                part,
            },
        ))
    }
}

impl<F: RuleFunctions> Scheduler<DcTask, Four> for Divider<F> {
    ghost use Rattle.ff_dc_tasks.specs.Dividers.{divider_does};
    ghost use Rattle.ff_dc_tasks.specs.DividerLaws.{IsScheduling-divider};

    ghost does = { divider_does };

    // Every task comes from the division: one that is fed in is dropped.
    fn offer(&mut self, t: DcTask) -> Result<(), NoMemory> {
        self.events.offered(&t);
        Ok(())
    }

    fn next(&mut self) -> Option<(u64, DcTask)> {
        let (place, task) = self.take()?;
        let id = place.id();
        self.out += 1;
        self.events.given(id, &task);
        Some((id, task))
    }

    fn back(&mut self, id: u64, a: Four) -> Result<(), NoMemory> {
        self.events.back(id, &a);
        self.out -= 1;
        let place = Place::of(id);
        if place.number == 0 {
            self.values = Some(a);
            return Ok(());
        }
        if let Some(pair) = self.halves.meet(place, a)? {
            self.ready.push(pair)?;
        }
        Ok(())
    }

    fn idle(&self) -> bool {
        self.out == 0 && self.ready.is_empty() && self.walk.is_over()
    }

    ghost sound = { IsScheduling-divider };
}
