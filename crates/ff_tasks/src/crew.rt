// Workers in threads of their own.
ghost use Rattle.std.specs.Prelude.{◌≡◌, ◌≤◌, ◌+◌, false, [], length, All, IfOk, OnOk, vec_len, vec_capacity};
ghost use Rattle.ff_loop.specs.Events.{NoneOut};
ghost use Rattle.ff_spawn.specs.Counts.{RoseBy};
ghost use Rattle.ff_tasks.specs.Crews.{AreSound, IsFreshSeat, IsManned, came, handlers_of};
ghost use Rattle.ff_tasks.specs.Faults.{refused_count};
ghost use Rattle.ff_tasks.specs.Loops.{AllAnswer};
ghost use Rattle.ff_tasks.specs.Serving.{WorksOff};

use crate::making::{Made, make_all};
use crate::seat::Seat;
use crate::seats::close_all;
use crate::serving::serve;
use crate::settling::settle_all;
use crate::{Handler, LoopFault, LoopJob};
use ff_loop::{Master, Scheduler};
use ff_rec::NoMemory;
use ff_ring::Pause;
use ff_spawn::{RunningJobs, Spawner};
use std::alloc::Global;
use std::sync::Wait;

/// Workers that were started. They serve one scheduler after another, and `finish` alone spends
/// them. Only then it is known that what came was right.
pub(crate) struct Crew<T: Drop, A: Drop, H: Handler<T, A>, R: Wait + Drop> {
    pub(crate) seats: Vec<Seat<T, A>>,
    pub(crate) running: RunningJobs<LoopJob<T, A, H, R>>,
    // Room for the jobs, once they have ended.
    pub(crate) jobs: Vec<LoopJob<T, A, H, R>>,
    pause: Pause,
    cap: u32,
}

impl<
    T: Drop + Send + 'static,
    A: Drop + Send + 'static,
    H: Handler<T, A> + Send + 'static,
    R: Wait + Clone + Drop + Send + 'static,
> Crew<T, A, H, R> {
    /// Starts a worker for each handler. Where not all could be started, those that were are joined.
    pub(crate) fn start<P: Spawner<LoopJob<T, A, H, R>>>(
        rt: &R,
        alloc: Global,
        handlers: Vec<H>,
        cap: u32,
        by: &mut P,
    ) -> Result<Crew<T, A, H, R>, LoopFault>
        requires low { 1 ≤ cap }
        requires high { cap ≤ 4096 }
        requires few { length handlers.items ≤ 64 }
        ensures handlers { IfOk result (λ crew. handlers_of crew.running.jobs ≡ handlers.items) }
        ensures manned { IfOk result (λ crew. IsManned crew.seats.items crew.running.jobs) }
        ensures fresh { IfOk result (λ crew. All (λ s. IsFreshSeat s) crew.seats.items) }
        ensures none { IfOk result (λ crew. crew.jobs.items ≡ []) }
        ensures room { IfOk result (λ crew. length crew.running.jobs ≤ vec_capacity crew.jobs) }
        ensures refused { P.refused by.new ≡ refused_count (P.refused by.old) result }
        ensures starts { OnOk result (RoseBy (length handlers.items) (P.starts by.old) (P.starts by.new)) }
        ensures worked { OnOk result (P.worked by.new ≡ P.worked by.old) }
        ensures starts_stays { P.starts by.old ≤ P.starts by.new }
        ensures worked_stays { P.worked by.old ≤ P.worked by.new }
    {
        let Made {
            mut seats,
            mut jobs,
            mut pause,
        } = make_all(rt, alloc, handlers, cap)?;
        let mut running = RunningJobs::with_capacity(alloc, jobs.len())?;
        match running.start_all(alloc, by, &mut jobs) {
            Ok(()) => Ok(Crew {
                seats,
                running,
                jobs,
                pause,
                cap,
            }),
            Err(denial) => {
                break_up(&mut seats, running, jobs, &mut pause, rt, by);
                Err(denial.into())
            }
        }
    }

    /// Has the workers answer all tasks of a scheduler, of which none is out.
    pub(crate) fn work<S: Scheduler<T, A>>(
        &mut self,
        rt: &R,
        alloc: Global,
        scheduler: S,
    ) -> Result<S, NoMemory>
        requires right { S.does.IsRight scheduler }
        requires none_out { NoneOut (S.does.events scheduler) }
        requires manned { IsManned self.old.seats.items self.old.running.jobs }
        ensures works { IfOk result
            (λ s. WorksOff S.does scheduler s self.old.seats.items self.new.seats.items) }
        ensures manned { IsManned self.new.seats.items self.new.running.jobs }
        ensures running { self.new.running ≡ self.old.running }
        ensures jobs { self.new.jobs ≡ self.old.jobs }
    {
        let mut master = Master::new(alloc, scheduler, self.seats.len() as u32)?;
        serve(&mut master, &mut self.seats, self.cap, &mut self.pause, rt)?;
        Ok(master.take())
    }

    /// Tells the workers the end and joins their threads.
    pub(crate) fn finish<P: Spawner<LoopJob<T, A, H, R>>>(self, rt: &R, by: &mut P)
        requires manned { IsManned self.seats.items self.running.jobs }
        requires none { self.jobs.items ≡ [] }
        requires room { length self.running.jobs ≤ vec_capacity self.jobs }
        ensures sound { (f : T → A) → AllAnswer H.answers f (handlers_of self.running.jobs)
            → AreSound f self.seats.items }
        ensures work { RoseBy (came self.seats.items) (P.worked by.old) (P.worked by.new) }
        ensures refused { P.refused by.new ≡ P.refused by.old }
        ensures starts { P.starts by.new ≡ P.starts by.old }
        ensures worked_stays { P.worked by.old ≤ P.worked by.new }
    {
        let Crew {
            mut seats,
            running,
            mut jobs,
            mut pause,
            cap: _,
        } = self;
        close_all(&mut seats, &mut pause, rt);
        running.finish_all(by, &mut jobs);
        settle_all(seats, jobs);
    }
}

// Ends the workers of which not all could be started: those that were are told the end, and the others
// say that they have ended.
fn break_up<
    T: Drop + Send + 'static,
    A: Drop + Send + 'static,
    H: Handler<T, A> + Send + 'static,
    R: Wait + Drop + Send + 'static,
    P: Spawner<LoopJob<T, A, H, R>>,
>(
    seats: &mut Vec<Seat<T, A>>,
    running: RunningJobs<LoopJob<T, A, H, R>>,
    jobs: Vec<LoopJob<T, A, H, R>>,
    pause: &mut Pause,
    rt: &R,
    by: &mut P,
)
    requires begin { All (λ job. job.ended ≡ false) jobs.items }
    requires room { vec_len jobs + length running.jobs ≤ vec_capacity jobs }
    ensures refused { P.refused by.new ≡ P.refused by.old }
    ensures starts { P.starts by.new ≡ P.starts by.old }
    ensures worked { P.worked by.old ≤ P.worked by.new }
{
    let mut jobs = jobs;
    while let Some(mut job) = jobs.pop() {
        job.abort();
    }
    close_all(seats, pause, rt);
    running.finish_all(by, &mut jobs);
}
