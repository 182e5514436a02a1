// Tasks by threads: the call.
ghost use Rattle.std.specs.Prelude.{◌≡◌, ◌≤◌, length, IfOk, OnOk};
ghost use Rattle.ff_loop.specs.Events.{NoneOut};
ghost use Rattle.ff_spawn.specs.Counts.{RoseBy};
ghost use Rattle.ff_tasks.specs.Faults.{refused_count};
ghost use Rattle.ff_tasks.specs.Loops.{KeepsAnswers, LoopRan};

use crate::crew::Crew;
use crate::{Handler, LoopFault, LoopJob};
use ff_loop::Scheduler;
use ff_spawn::Spawner;
use std::alloc::Global;
use std::sync::Wait;

/// Answers all tasks of a scheduler by as many workers as there are handlers, each in a thread of its
/// own. The calling thread is the master: a ready task goes to the worker with the fewest tasks, the
/// first of these, and only while that has fewer than `cap`. Threads wait by `rt`. After a fault the
/// scheduler is given up, and all threads that were started are joined.
pub fn run_loop<
    T: Drop + Send + 'static,
    A: Drop + Send + 'static,
    S: Scheduler<T, A>,
    H: Handler<T, A> + Send + 'static,
    R: Wait + Clone + Drop + Send + 'static,
    P: Spawner<LoopJob<T, A, H, R>>,
>(
    rt: &R,
    alloc: Global,
    scheduler: S,
    handlers: Vec<H>,
    cap: u32,
    spawner: &mut P,
) -> Result<S, LoopFault>
    requires right { S.does.IsRight scheduler }
    requires none_out { NoneOut (S.does.events scheduler) }
    requires some { 1 ≤ length handlers.items }
    requires few { length handlers.items ≤ 64 }
    requires low { 1 ≤ cap }
    requires high { cap ≤ 4096 }
    ensures ran { IfOk result (λ s. LoopRan S.does H.answers handlers.items scheduler s
        (P.worked spawner.old) (P.worked spawner.new)) }
    ensures answers { IfOk result
        (λ s. KeepsAnswers S.does H.answers handlers.items scheduler s) }
    ensures starts { OnOk result (RoseBy (length handlers.items)
        (P.starts spawner.old) (P.starts spawner.new)) }
    ensures refusals { P.refused spawner.new ≡ refused_count (P.refused spawner.old) result }
    ensures starts_stays { P.starts spawner.old ≤ P.starts spawner.new }
    ensures worked_stays { P.worked spawner.old ≤ P.worked spawner.new }
{
    let mut crew = Crew::start(rt, alloc, handlers, cap, spawner)?;
    let answer = crew.work(rt, alloc, scheduler);
    crew.finish(rt, spawner);
    match answer {
        Ok(served) => Ok(served),
        Err(fault) => Err(fault.into()),
    }
}
