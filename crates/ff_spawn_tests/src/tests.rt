// What no clause says: that jobs run in threads of their own while the caller goes on, and that starts succeed.
ghost use Rattle.std.specs.Prelude.{◌≡◌, true};
ghost use Rattle.ff_spawn.specs.Counts.{more};

use ff_rec::NoMemory;
use ff_spawn::{Denial, Job, RefuseAt, RunningJobs, Spawner, StartFault, Threads};
use std::alloc::Global;
use std::sync::{Arc, Barrier, Wait};
use std::test::Fail;
use std::thread;

// Waits at a door until all are there.
#[derive(Drop)]
struct Meets<R> {
    rt: R,
    door: Arc<Barrier>,
    number: u64,
    was_there: bool,
}

impl<R: Wait + Drop> Job for Meets<R> {
    ghost done = { λ before after. (after.number ≡ before.number)
        × (after.was_there ≡ true) };

    ghost amount = { λ job. job.number };

    fn run(&mut self) {
        self.door.wait(&self.rt);
        self.was_there = true;
    }

    fn work(&self) -> u64 {
        self.number
    }
}

// Counts its runs.
#[derive(Drop)]
struct Marks {
    number: u64,
    runs: u64,
}

impl Job for Marks {
    ghost done = { λ before after. (after.number ≡ before.number)
        × (after.runs ≡ more before.runs) };

    ghost amount = { λ job. job.number };

    fn run(&mut self) {
        self.runs = self.runs.saturating_add(1);
    }

    fn work(&self) -> u64 {
        self.number
    }
}

// Jobs that meet at one door, numbered from 1.
fn meeting<R: Wait + Clone + Drop>(
    alloc: Global,
    rt: &R,
    door: &Arc<Barrier>,
    count: u64,
) -> Result<Vec<Meets<R>>, NoMemory> {
    let mut jobs = Vec::new(alloc);
    for k in 0..count {
        jobs.push(Meets {
            rt: rt.clone()?,
            door: Arc::try_clone(door)?,
            number: k + 1,
            was_there: false,
        })?;
    }
    Ok(jobs)
}

#[test]
fn jobs_meet_in_threads_of_their_own(rt: HostRuntime) -> Result<(), Fail> {
    // With the calling thread there are four.
    let door = Arc::new(rt.alloc(), Barrier::new(4))?;
    let mut jobs = meeting(rt.alloc(), &rt, &door, 3)?;
    let mut spawner = Threads::new(rt.clone()?);
    let mut running = RunningJobs::with_capacity(rt.alloc(), jobs.len())?;
    let started = running.start_all(rt.alloc(), &mut spawner, &mut jobs);
    assert_eq!(rt; started, Ok(()));
    door.wait(&rt);
    running.finish_all(&mut spawner, &mut jobs);
    assert_eq!(rt; jobs.len(), 3);
    for (k, job) in jobs.iter().enumerate() {
        assert!(rt; job.was_there);
        assert_eq!(rt; job.number, k as u64 + 1);
    }
    assert_eq!(rt;
        (spawner.refused(), spawner.starts(), spawner.worked()),
        (0, 3, 6)
    );
    Ok(())
}

// Tries to start three jobs, the third first. It tells how often each ran, and the three counts.
fn three_starts<R: thread::Threads + Wait + Clone + Drop + Send + 'static>(
    alloc: Global,
    rt: &R,
    refuse: u64,
) -> Result<([u64; 3], (u64, u64, u64)), NoMemory> {
    let mut jobs = Vec::new(alloc);
    for number in [1, 2, 3] {
        jobs.push(Marks { number, runs: 0 })?;
    }
    let refuse = Vec::from_array(alloc, [refuse])?;
    let mut spawner = RefuseAt::new(Threads::new(rt.clone()?), refuse);
    let mut running = RunningJobs::with_capacity(alloc, jobs.len())?;
    let started = running.start_all(alloc, &mut spawner, &mut jobs);
    running.finish_all(&mut spawner, &mut jobs);
    let inner = spawner.inner();
    if started == Err(Denial::NoMemory) || jobs.len() != 3 {
        return Err(NoMemory);
    }
    let runs = [jobs[0].runs, jobs[1].runs, jobs[2].runs];
    Ok((runs, (inner.refused(), inner.starts(), inner.worked())))
}

#[test]
fn starts_are_refused_at_their_numbers(rt: HostRuntime) -> Result<(), Fail> {
    let table = [
        (1, ([0, 0, 0], (1, 0, 0))),
        (2, ([0, 0, 1], (1, 1, 3))),
        (3, ([0, 1, 1], (1, 2, 5))),
        (4, ([1, 1, 1], (0, 3, 6))),
    ];
    for (refuse, want) in table {
        assert_eq!(rt;
            three_starts(rt.alloc(), &rt, refuse)?,
            want,
            "start {refuse}"
        );
    }
    Ok(())
}

// Starts one job and finishes it. It tells how often the job ran then, or that the start was refused.
fn runs_once<S: Spawner<Marks>>(
    alloc: Global,
    spawner: &mut S,
    number: u64,
) -> Result<Option<u64>, NoMemory> {
    match spawner.start(alloc, Marks { number, runs: 0 }) {
        Ok(running) => Ok(Some(spawner.finish(running).runs)),
        Err(StartFault::Refused(_)) => Ok(None),
        Err(StartFault::NoMemory(_)) => Err(NoMemory),
    }
}

#[test]
fn a_refused_start_is_not_passed_on(rt: HostRuntime) -> Result<(), Fail> {
    let alloc = rt.alloc();
    // The inner one is asked for starts 2, 3, 5 and 6, and refuses the second of these.
    let inner = RefuseAt::new(Threads::new(rt.clone()?), Vec::from_array(alloc, [2])?);
    let mut spawner = RefuseAt::new(inner, Vec::from_array(alloc, [1, 4])?);
    for (number, want) in [
        (1, None),
        (2, Some(1)),
        (3, None),
        (4, None),
        (5, Some(1)),
        (6, Some(1)),
    ] {
        assert_eq!(rt;
            runs_once(alloc, &mut spawner, number)?,
            want,
            "start {number}"
        );
    }
    let threads = spawner.inner().inner();
    assert_eq!(rt;
        (threads.refused(), threads.starts(), threads.worked()),
        (3, 3, 13)
    );
    Ok(())
}
