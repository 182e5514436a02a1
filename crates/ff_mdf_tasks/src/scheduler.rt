// Which tasks of a program may be done.
ghost use Rattle.std.specs.Prelude.{◌≡◌, None, replicate, IfOk};

use crate::MdfTask;
use crate::queue::Queue;
use crate::readers::Readers;
use crate::task::{task_at, value_linked};
use crate::waking::{first_ready, wake};
use ff_loop::{Events, Scheduler};
use ff_mdf::{CheckedProgram, MdfAnswer, Store};
use ff_rec::NoMemory;
use std::alloc::Global;
use std::marker::Model;

/// The tasks of a program, each ready once the latest earlier writer of each name that it reads is
/// back. The versions of names are the answers of the tasks that write them. A task that is fed in
/// is none of the program, and is dropped.
#[derive(Drop)]
pub struct MdfScheduler<'p> {
    program: &'p CheckedProgram,
    readers: Readers,
    // The answer of each statement, where it is back.
    answers: Vec<Option<MdfAnswer>>,
    queue: Queue,
    // How many of the queue were given, and how many of these are out.
    next: usize,
    out: usize,
    events: Events<MdfTask, MdfAnswer>,
}

impl<'p> Model for MdfScheduler<'p> {
    ghost use Rattle.ff_mdf_tasks.specs.Schedulers.{MdfState};

    ghost Value = { MdfState };

    ghost view = { λ s. record {
      program = s.program.now;
      readers = s.readers;
      answers = s.answers.items;
      queue = s.queue;
      next = s.next;
      out = s.out;
      events = s.events;
    } };
}

impl<'p> MdfScheduler<'p> {
    ghost use Rattle.ff_mdf_tasks.specs.Schedulers.{IsOpened, IsRight, store_so_far};

    /// The tasks of a program. All room is taken here.
    pub fn new(alloc: Global, program: &'p CheckedProgram) -> Result<MdfScheduler<'p>, NoMemory>
        ensures { IfOk result (IsOpened program.now) }
    {
        let count = program.program().as_slice().len();
        let readers = Readers::new(alloc, program)?;
        let answers = no_answers(alloc, count)?;
        let queue = first_ready(alloc, program, answers.as_slice())?;
        Ok(MdfScheduler {
            program,
            readers,
            answers,
            queue,
            next: 0,
            out: 0,
            events: Events::new(),
        })
    }

    /// The names that the program puts out, with the values that came back for them so far.
    pub fn store(&self, alloc: Global) -> Result<Store, NoMemory>
        requires { IsRight self.now }
        ensures { IfOk result (λ s. s ≡ store_so_far self.now) }
    {
        let names = self.program.out_names();
        let links = self.program.out_links();
        let mut store = Store::with_capacity(alloc, names.len())?;
        for k in 0..names.len() {
            store.push(&names[k], value_linked(self.answers.as_slice(), links[k]))?;
        }
        Ok(store)
    }
}

impl<'p> Scheduler<MdfTask, MdfAnswer> for MdfScheduler<'p> {
    ghost use Rattle.ff_mdf_tasks.specs.SchedulerLaws.{IsScheduling-mdf};
    ghost use Rattle.ff_mdf_tasks.specs.Schedulers.{mdf_does};

    ghost does = { mdf_does };

    fn offer(&mut self, t: MdfTask) -> Result<(), NoMemory> {
        self.events.offered(&t);
        Ok(())
    }

    fn next(&mut self) -> Option<(u64, MdfTask)> {
        let k = self.queue.get(self.next)?;
        let task = task_at(self.program, self.answers.as_slice(), k);
        self.next += 1;
        self.out += 1;
        self.events.given(k as u64, &task);
        Some((k as u64, task))
    }

    fn back(&mut self, id: u64, a: MdfAnswer) -> Result<(), NoMemory> {
        let k = id as usize;
        self.events.back(id, &a);
        self.answers[k] = Some(a);
        self.out -= 1;
        let answers = self.answers.as_slice();
        wake(self.program, &self.readers, answers, k, &mut self.queue)
    }

    fn idle(&self) -> bool {
        self.out == 0 && self.next == self.queue.len()
    }

    ghost sound = { IsScheduling-mdf };
}

// No statement is back.
fn no_answers(alloc: Global, count: usize) -> Result<Vec<Option<MdfAnswer>>, NoMemory>
    ensures { IfOk result (λ answers. answers.items ≡ replicate count None) }
{
    Ok(vec![in alloc; None; count]?)
}
