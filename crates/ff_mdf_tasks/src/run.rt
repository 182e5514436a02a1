// Programs by threads: the call.
ghost use Rattle.std.specs.Prelude.{◌≡◌, ◌≤◌, length, IfOk, OnOk};
ghost use Rattle.ff_mdf.specs.Stores.{store};
ghost use Rattle.ff_prog.specs.Rules.{tasks_until};
ghost use Rattle.ff_spawn.specs.Counts.{RoseBy};
ghost use Rattle.ff_tasks.specs.Faults.{refused_count};

use crate::{MdfHandler, MdfScheduler, MdfTask};
use ff_mdf::{CheckedProgram, MdfAnswer, Store};
use ff_rec::NoMemory;
use ff_spawn::Spawner;
use ff_tasks::{LoopFault, LoopJob, run_loop};
use std::alloc::Global;
use std::sync::Wait;

/// What a worker's thread does.
pub type MdfJob<R> = LoopJob<MdfTask, MdfAnswer, MdfHandler, R>;

/// How many tasks a worker may have at a time.
const TASKS_OF_A_WORKER: u32 = 64;

/// The store of a program, by so many worker threads. The calling thread does no task itself.
pub fn run_program<R: Wait + Clone + Drop + Send + 'static, P: Spawner<MdfJob<R>>>(
    rt: &R,
    alloc: Global,
    program: &CheckedProgram,
    workers: u32,
    spawner: &mut P,
) -> Result<Store, LoopFault>
    requires some { 1 ≤ workers }
    requires few { workers ≤ 64 }
    ensures store { IfOk result (λ s. s ≡ store program.now) }
    ensures starts { OnOk result
        (RoseBy workers (P.starts spawner.old) (P.starts spawner.new)) }
    ensures work { OnOk result (RoseBy (tasks_until program.now (length program.now))
        (P.worked spawner.old) (P.worked spawner.new)) }
    ensures refusals { P.refused spawner.new ≡ refused_count (P.refused spawner.old) result }
    ensures starts_stays { P.starts spawner.old ≤ P.starts spawner.new }
    ensures worked_stays { P.worked spawner.old ≤ P.worked spawner.new }
{
    let tasks = MdfScheduler::new(alloc, program)?;
    let handlers = handlers(alloc, workers)?;
    let done = run_loop(rt, alloc, tasks, handlers, TASKS_OF_A_WORKER, spawner)?;
    Ok(done.store(alloc)?)
}

// A handler for each worker.
fn handlers(alloc: Global, workers: u32) -> Result<Vec<MdfHandler>, NoMemory>
    ensures { IfOk result (λ all. length all.items ≡ workers) }
{
    Ok(vec![in alloc; MdfHandler; workers as usize]?)
}
