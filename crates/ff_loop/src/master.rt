// Between a scheduler and its workers.
ghost use Rattle.std.specs.Prelude.{◌≡◌, ℕ, ◌+◌, ◌<◌, ◌↔◌, length, IsTrue, IfOk, OnOk};
ghost use Rattle.ff_loop.specs.Events.{IsIdle, NoneOut};
ghost use Rattle.ff_loop.specs.Masters.{opened_master, HasDoneAll, IsKept, Moves, Gives};
ghost use Rattle.ff_loop.specs.Moves.{Fed, Got, asked, answered};
ghost use Rattle.ff_loop.specs.Scheduling.{made_by};

mod wraps;

use crate::Scheduler;
use crate::log::Log;
use crate::numbers::{Numbers, none_for};
use ff_rec::NoMemory;
use std::alloc::Global;
use std::marker::Model;
use std::snapshot::Snapshot;

/// Hands the tasks of a scheduler to workers, and their answers back to it. It keeps which worker has which, and can tell
/// all that it did. After `NoMemory` it is given up.
#[derive(Drop)]
pub struct Master<T, A, S> {
    scheduler: S,
    // The scheduler as it was taken.
    start: Snapshot<S>,
    // For each worker the numbers that are out, the oldest first.
    out: Vec<Numbers>,
    log: Log<T, A>,
}

impl<T, A, S> Model for Master<T, A, S> {
    ghost use Rattle.ff_loop.specs.Masters.{MasterState};

    ghost Value = { MasterState T A S };

    ghost view = { λ m. record { scheduler = m.scheduler; start = m.start.value; held = m.out.items; log = m.log } };
}

impl<T: Drop, A: Drop, S: Scheduler<T, A>> Master<T, A, S> {
    /// A master of so many workers, over a scheduler of which no task is out.
    pub fn new(alloc: Global, scheduler: S, workers: u32) -> Result<Master<T, A, S>, NoMemory>
        requires right { S.does.IsRight scheduler }
        requires none_out { NoneOut (S.does.events scheduler) }
        ensures opened { IfOk result (λ m. m ≡ opened_master scheduler workers) }
        ensures kept { IfOk result (λ m. IsKept S.does m) }
    {
        let start = Snapshot::of(&scheduler);
        let out = none_for(alloc, workers)?;
        Ok(Master {
            scheduler,
            start,
            out,
            log: Log::new(),
        })
    }

    /// Feeds a task in.
    pub fn offer(&mut self, t: T) -> Result<(), NoMemory>
        requires { IsKept S.does self.old }
        ensures { OnOk result (Moves S.does self.old self.new (Fed t)) }
    {
        self.log.fed(&t);
        self.scheduler.offer(t)
    }

    /// The next ready task, for worker `w`. `None` comes exactly where none is ready.
    pub fn give(&mut self, w: u32) -> Result<Option<T>, NoMemory>
        requires kept { IsKept S.does self.old }
        requires worker { w < length self.old.held }
        ensures { IfOk result (λ t. Gives S.does w self.old t self.new) }
    {
        let Some((id, t)) = self.scheduler.next() else {
            return Ok(None);
        };
        self.out[w as usize].push(id)?;
        self.log.gave(w, id, &t);
        Ok(Some(t))
    }

    /// The answer of worker `w` to the oldest task that it has.
    pub fn got(&mut self, w: u32, a: A) -> Result<(), NoMemory>
        requires kept { IsKept S.does self.old }
        requires worker { w < length self.old.held }
        requires owed { length (answered w self.old.log) < length (asked w self.old.log) }
        ensures { OnOk result ((id : ℕ) × Moves S.does self.old self.new (Got w id a)) }
    {
        let id = self.out[w as usize].take_first();
        self.log.got(w, id, &a);
        self.scheduler.back(id, a)
    }

    /// How many tasks worker `w` has.
    pub fn out(&self, w: u32) -> u64
        requires kept { IsKept S.does self.now }
        requires worker { w < length self.now.held }
        ensures { result + length (answered w self.now.log) ≡ length (asked w self.now.log) }
    {
        self.out[w as usize].len() as u64
    }

    /// Whether no task is ready and no worker has one. Then all that there was to do is done.
    pub fn idle(&self) -> bool
        requires { IsKept S.does self.now }
        ensures idle { IsTrue result ↔ IsIdle (made_by S.does self.now.scheduler) (S.does.events self.now.scheduler) }
        ensures done { IsTrue result ↔ HasDoneAll S.does self.now }
    {
        self.scheduler.idle()
    }

    /// The scheduler, handed back.
    pub fn take(self) -> S
        ensures { result ≡ self.scheduler }
    {
        self.scheduler
    }
}
