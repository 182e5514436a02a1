// What is made before the first start.
ghost use Rattle.std.specs.Prelude.{◌≡◌, ◌≤◌, false, length, All, IfOk};
ghost use Rattle.ff_tasks.specs.Crews.{IsFreshSeat, IsManned, handlers_of};

use crate::seat::Seat;
use crate::{Handler, LoopJob};
use ff_rec::NoMemory;
use ff_ring::{Bell, Pause, Spins, ring};
use std::alloc::Global;
use std::sync::{Arc, Wait};

/// Jobs that weren't started, with the seats of the calling thread and its pause.
pub(crate) struct Made<T, A, H: Handler<T, A>, R> {
    pub(crate) seats: Vec<Seat<T, A>>,
    pub(crate) jobs: Vec<LoopJob<T, A, H, R>>,
    pub(crate) pause: Pause,
}

/// A job and a seat for each handler. A worker may have `cap` tasks.
pub(crate) fn make_all<T: Drop, A: Drop, H: Handler<T, A>, R: Wait + Clone + Drop>(
    rt: &R,
    alloc: Global,
    handlers: Vec<H>,
    cap: u32,
) -> Result<Made<T, A, H, R>, NoMemory>
    requires low { 1 ≤ cap }
    requires high { cap ≤ 4096 }
    requires few { length handlers.items ≤ 64 }
    ensures handlers { IfOk result (λ made. handlers_of made.jobs.items ≡ handlers.items) }
    ensures manned { IfOk result (λ made. IsManned made.seats.items made.jobs.items) }
    ensures fresh { IfOk result (λ made. All (λ s. IsFreshSeat s) made.seats.items) }
{
    let own = Arc::new(alloc, Bell::new())?;
    let mut seats = Vec::new(alloc);
    let mut jobs = Vec::new(alloc);
    for handler in handlers {
        let (seat, job) = make_worker(rt, alloc, handler, cap, &own)?;
        seats.push(seat)?;
        jobs.push(job)?;
    }
    Ok(Made {
        seats,
        jobs,
        pause: Pause::new(own, Spins::Many, false),
    })
}

// The job of one handler and its seat, with a ring of tasks and a ring of answers between them. Full
// bundles are handed over, and the others before a thread rests: to hand over each task would cost
// more than most tasks.
fn make_worker<T: Drop, A: Drop, H: Handler<T, A>, R: Wait + Clone + Drop>(
    rt: &R,
    alloc: Global,
    handler: H,
    cap: u32,
    own: &Arc<Bell, Global>,
) -> Result<(Seat<T, A>, LoopJob<T, A, H, R>), NoMemory>
    requires low { 1 ≤ cap }
    requires high { cap ≤ 4096 }
    ensures handler { IfOk result (λ made. made.1.handler ≡ handler) }
    ensures link { IfOk result (λ made. made.0.link ≡ made.1.link) }
    ensures open { IfOk result (λ made. made.0.told ≡ false) }
    ensures seat { IfOk result (λ made. IsFreshSeat made.0) }
    ensures job { IfOk result (λ made. made.1.ended ≡ false) }
{
    let bell = Arc::new(alloc, Bell::new())?;
    let slots = cap as usize + 1;
    let (mut out, tasks) = ring(alloc, slots, Arc::try_clone(own)?, Arc::try_clone(&bell)?)?;
    let (mut answers, inn) = ring(alloc, slots, Arc::try_clone(&bell)?, Arc::try_clone(own)?)?;
    out.set_eager(false);
    answers.set_eager(false);
    let pause = Pause::new(bell, Spins::Many, false);
    let job = LoopJob::new(handler, tasks, answers, pause, rt.clone()?);
    Ok((Seat::new(out, inn), job))
}
