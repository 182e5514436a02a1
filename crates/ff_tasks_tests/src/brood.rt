// A scheduler for tests.
ghost use Rattle.std.specs.Prelude.{◌≡◌, ◌++◌, replicate, IfOk, OnOk};
ghost use Rattle.ff_loop.specs.Events.{NoneOut};
ghost use Rattle.ff_tasks_tests.specs.Broods.{HasGrown, IsRight, came_back};

use ff_loop::{Events, Scheduler};
use ff_rec::NoMemory;
use std::alloc::Global;

/// Tasks that are numbers, as their answers are. An answer makes as many tasks as its last three
/// digits say, each the number before these: 2003 makes three tasks 2, each of which makes two tasks
/// 0, where a task is its own answer. The newest task is given first.
#[derive(Drop)]
pub struct Brood {
    ready: Vec<u64>,
    // How many tasks came, were given and are back.
    came: u64,
    given: u64,
    back: u64,
    answers: Vec<u64>,
    events: Events<u64, u64>,
}

impl Brood {
    /// These tasks come first.
    pub fn of(alloc: Global, tasks: &[u64]) -> Result<Brood, NoMemory>
        ensures right { IfOk result (λ b. IsRight b) }
        ensures none_out { IfOk result (λ b. NoneOut b.events) }
    {
        let mut brood = Brood {
            ready: Vec::new(alloc),
            came: 0,
            given: 0,
            back: 0,
            answers: Vec::new(alloc),
            events: Events::new(),
        };
        for t in tasks {
            brood.offer(*t)?;
        }
        Ok(brood)
    }

    /// The answers that came back, in their order.
    pub fn into_answers(self) -> Vec<u64>
        requires { IsRight self }
        ensures { result.items ≡ came_back self.events }
    {
        self.answers
    }

    // So many tasks of one number come. There are fewer than 2^64 in all.
    fn grow(&mut self, count: u64, task: u64) -> Result<(), NoMemory>
        ensures { OnOk result (HasGrown self.old self.new count task) }
    {
        let Some(came) = self.came.checked_add(count) else {
            return Err(NoMemory);
        };
        self.came = came;
        push_times(&mut self.ready, task, count)
    }
}

impl Scheduler<u64, u64> for Brood {
    ghost use Rattle.ff_tasks_tests.specs.Broods.{brood_does};
    ghost use Rattle.ff_tasks_tests.specs.BroodLaws.{IsScheduling-brood};

    ghost does = { brood_does };

    fn offer(&mut self, t: u64) -> Result<(), NoMemory> {
        self.events.offered(&t);
        self.grow(1, t)
    }

    fn next(&mut self) -> Option<(u64, u64)> {
        let t = self.ready.pop()?;
        let id = self.given;
        self.given += 1;
        self.events.given(id, &t);
        Some((id, t))
    }

    fn back(&mut self, id: u64, a: u64) -> Result<(), NoMemory> {
        self.events.back(id, &a);
        self.back += 1;
        self.answers.push(a)?;
        self.grow(a % 1000, a / 1000)
    }

    fn idle(&self) -> bool {
        self.back == self.came
    }

    ghost sound = { IsScheduling-brood };
}

// Puts a number behind these, so many times.
fn push_times(numbers: &mut Vec<u64>, number: u64, count: u64) -> Result<(), NoMemory>
    ensures { OnOk result (numbers.new.items ≡ numbers.old.items ++ replicate count number) }
{
    for _ in 0..count {
        numbers.push(number)?;
    }
    Ok(())
}
