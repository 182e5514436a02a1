// Workers whose threads have ended.
ghost use Rattle.std.specs.Prelude.{◌≡◌, map};
ghost use Rattle.std.specs.List.{AllZip};
ghost use Rattle.ff_tasks.specs.Crews.{IsSettled};
ghost use Rattle.ff_tasks.specs.Seats.{links};

use crate::seat::Seat;
use crate::{Handler, LoopJob};
use ff_ring::settle;
use std::sync::Wait;

/// Settles the rings of all workers.
pub(crate) fn settle_all<T: Drop, A: Drop, H: Handler<T, A>, R: Wait + Drop>(
    seats: Vec<Seat<T, A>>,
    jobs: Vec<LoopJob<T, A, H, R>>,
)
    requires { links seats.items ≡ map (λ job. job.link) jobs.items }
    ensures { AllZip IsSettled seats.items jobs.items }
{
    let mut seats = seats;
    let mut jobs = jobs;
    while let Some(job) = jobs.pop() {
        let Some(seat) = seats.pop() else {
            unreachable!()
        };
        settle_one(seat, job);
    }
}

// Settles the rings of one worker.
fn settle_one<T: Drop, A: Drop, H: Handler<T, A>, R: Wait + Drop>(
    seat: Seat<T, A>,
    job: LoopJob<T, A, H, R>,
)
    requires { seat.link ≡ job.link }
    ensures { IsSettled seat job }
{
    let (mut out, mut inn) = seat.into_ends();
    let (mut tasks, mut answers) = job.into_ends();
    settle(&mut out, &mut tasks);
    settle(&mut answers, &mut inn);
}
