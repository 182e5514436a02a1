// What starts jobs in threads, and counts that.
ghost use Rattle.std.specs.Prelude.{◌≡◌, ◌≤◌, ◌↔◌, ℕ, Bool, true, IfOk, IfErr};
ghost use Rattle.ff_spawn.specs.Counts.{more, more_by, starts_after, refused_after};
ghost use Rattle.ff_spawn.specs.Starts.{HandsBack, IsRefusal};

use crate::started::start_thread;
use crate::{Denial, Job, StartFault, Started};
use std::alloc::Global;
use std::sync::Wait;
use std::thread::Threads;

/// What is counted of starts. Each count has 64 bits and stands still at its last value.
pub trait Refusals {
    /// How many starts were refused.
    ghost refused: { Self → ℕ };

    /// How many jobs were started, each in a thread of its own.
    ghost starts: { Self → ℕ };

    /// How much the finished jobs handled, all together.
    ghost worked: { Self → ℕ };
}

/// The leave to count. `start` and `finish` alone make one, so that no count rises without them.
#[derive(Drop)]
pub struct Counting(());

/// Starts jobs in threads of their own.
pub trait Spawner<J: Job + Send + 'static>: Refusals {
    /// The right to start threads, to join them and to wait.
    type Handle: Threads + Wait + Clone + Drop + Send + 'static;

    /// Whether the spawner refuses the next start by itself, before a thread is tried.
    ghost denies: { Self → Bool };

    /// The right that the next thread gets, or why it isn't started.
    fn admit(&mut self, by: &Counting) -> Result<Self::Handle, Denial>
        ensures denied { (result ≡ Err Denial.Refused) ↔ (denies self.old ≡ true) }
        ensures refused { Self.refused self.new ≡ Self.refused self.old }
        ensures starts { Self.starts self.new ≡ Self.starts self.old }
        ensures worked { Self.worked self.new ≡ Self.worked self.old };

    /// Counts a start that was refused.
    fn count_refused(&mut self, by: &Counting)
        ensures refused { Self.refused self.new ≡ more (Self.refused self.old) }
        ensures starts { Self.starts self.new ≡ Self.starts self.old }
        ensures worked { Self.worked self.new ≡ Self.worked self.old }
        ensures refused_stays { Self.refused self.old ≤ Self.refused self.new };

    /// Counts a thread that was started.
    fn count_started(&mut self, by: &Counting)
        ensures refused { Self.refused self.new ≡ Self.refused self.old }
        ensures starts { Self.starts self.new ≡ more (Self.starts self.old) }
        ensures worked { Self.worked self.new ≡ Self.worked self.old }
        ensures starts_stays { Self.starts self.old ≤ Self.starts self.new };

    /// Counts what a finished job handled.
    fn count_worked(&mut self, by: &Counting, work: u64)
        ensures refused { Self.refused self.new ≡ Self.refused self.old }
        ensures starts { Self.starts self.new ≡ Self.starts self.old }
        ensures worked { Self.worked self.new ≡ more_by work (Self.worked self.old) }
        ensures worked_stays { Self.worked self.old ≤ Self.worked self.new };

    /// The right by which threads are started and joined.
    fn handle(&self) -> &Self::Handle;

    /// Starts a job in a thread of its own. Where that isn't done, the job comes back.
    final fn start(&mut self, alloc: Global, job: J) -> Result<Started<J>, StartFault<J>>
        ensures job { IfOk result (λ running. running ≡ job) }
        ensures back { IfErr result (HandsBack job) }
        ensures denied { denies self.old ≡ true → IsRefusal result }
        ensures refused { Self.refused self.new ≡ refused_after (Self.refused self.old) result }
        ensures starts { Self.starts self.new ≡ starts_after (Self.starts self.old) result }
        ensures worked { Self.worked self.new ≡ Self.worked self.old }
        ensures refused_stays { Self.refused self.old ≤ Self.refused self.new }
        ensures starts_stays { Self.starts self.old ≤ Self.starts self.new }
    {
        let by = Counting(());
        let answer = match self.admit(&by) {
            Ok(rt) => start_thread(self.handle(), rt, alloc, job),
            Err(Denial::Refused) => Err(StartFault::Refused(job)),
            Err(Denial::NoMemory) => Err(StartFault::NoMemory(job)),
        };
        match &answer {
            Ok(_) => self.count_started(&by),
            Err(StartFault::Refused(_)) => self.count_refused(&by),
            Err(StartFault::NoMemory(_)) => {}
        }
        answer
    }

    /// Waits until the thread has ended, and gives the job after its run.
    final fn finish(&mut self, running: Started<J>) -> J
        ensures done { J.done running result }
        ensures refused { Self.refused self.new ≡ Self.refused self.old }
        ensures starts { Self.starts self.new ≡ Self.starts self.old }
        ensures worked { Self.worked self.new ≡ more_by (J.amount result) (Self.worked self.old) }
        ensures worked_stays { Self.worked self.old ≤ Self.worked self.new }
    {
        let job = running.join(self.handle());
        self.count_worked(&Counting(()), job.work());
        job
    }
}
