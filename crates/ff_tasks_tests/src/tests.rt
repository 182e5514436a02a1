// What no clause says: that memory is there, that starts succeed, that runs come to their end and leave no thread
// behind, and that handlers run at the same time.
ghost use Rattle.std.specs.Prelude.{◌≤◌};

use crate::Brood;
use crate::tests::echo::Echo;
use ff_loop::Scheduler;
use ff_rec::NoMemory;
use ff_spawn::{RefuseAt, Threads};
use ff_tasks::{LoopFault, run_loop};
use std::alloc::Global;
use std::process::Abort;
use std::sync::{Arc, Wait};
use std::test::Fail;
use std::thread;

mod echo;
mod meeting;
mod waiting;

// A first task and how many come in all: 999 tasks 100, each with a hundred tasks 0.
const MANY: (u64, u64) = (100_999, 100_900);

/// A runtime by which a test runs threads.
trait Host: thread::Threads + Wait + Abort + Clone + Drop + Send + 'static {}

impl<R: thread::Threads + Wait + Abort + Clone + Drop + Send + 'static> Host for R {}

// What came of a run: the answers, the least first, or why it broke off; and how many threads were started, how many tasks they
// answered, and how many starts were refused.
type Outcome = (Result<Vec<u64>, LoopFault>, [u64; 3]);

// The answers to all tasks that come of these, on one thread.
fn alone(alloc: Global, tasks: &[u64]) -> Result<Vec<u64>, NoMemory> {
    let mut brood = Brood::of(alloc, tasks)?;
    for _ in 0..u64::MAX {
        let Some((id, t)) = brood.next() else {
            break;
        };
        brood.back(id, t)?;
    }
    in_order(brood.into_answers())
}

// These numbers, the least first.
fn in_order(numbers: Vec<u64>) -> Result<Vec<u64>, NoMemory> {
    let mut numbers = numbers;
    numbers.sort()?;
    Ok(numbers)
}

// Has workers answer these tasks, at most `left` each, where start `refuse` is refused, counted from 1. No thread has a
// handler any more then.
fn by_threads<R: Host>(
    rt: &R,
    alloc: Global,
    tasks: &[u64],
    workers: u32,
    cap: u32,
    left: u64,
    refuse: u64,
) -> Result<Outcome, Fail>
    requires some { 1 ≤ workers }
    requires few { workers ≤ 64 }
    requires low { 1 ≤ cap }
    requires high { cap ≤ 4096 }
{
    let held = Arc::new(alloc, 0)?;
    let handlers = Echo::several(alloc, workers, left, &held)?;
    let brood = Brood::of(alloc, tasks)?;
    let refuse = Vec::from_array(alloc, [refuse])?;
    let mut spawner = RefuseAt::new(Threads::new(rt.clone()?), refuse);
    let answer = run_loop(rt, alloc, brood, handlers, cap, &mut spawner);
    assert_eq!(rt; Arc::strong_count(&held), 1);
    let inner = spawner.inner();
    let counts = [inner.starts(), inner.worked(), inner.refused()];
    match answer {
        Ok(brood) => Ok((Ok(in_order(brood.into_answers())?), counts)),
        Err(fault) => Ok((Err(fault), counts)),
    }
}

// The answers by threads are those on one thread, and there are so many.
fn check<R: Host>(
    rt: &R,
    alloc: Global,
    tasks: &[u64],
    count: u64,
    workers: u32,
    cap: u32,
) -> Result<(), Fail>
    requires some { 1 ≤ workers }
    requires few { workers ≤ 64 }
    requires low { 1 ≤ cap }
    requires high { cap ≤ 4096 }
{
    let (answer, counts) = by_threads(rt, alloc, tasks, workers, cap, u64::MAX, 0)?;
    let Ok(answers) = answer else {
        return Err(Fail::from("the run broke off"));
    };
    assert_eq!(rt;
        counts,
        [u64::from(workers), count, 0],
        "{workers} workers, {cap} ahead"
    );
    assert_eq!(rt;
        answers.len() as u64,
        count,
        "{workers} workers, {cap} ahead"
    );
    assert!(rt; answers.as_slice() == alone(alloc, tasks)?.as_slice());
    Ok(())
}

// Tasks whose answers make none, one and many.
#[test]
fn as_on_one_thread(rt: HostRuntime) -> Result<(), Fail> {
    let rows: [(&[u64], u64); 6] = [
        (&[], 0),
        (&[0], 1),
        (&[5, 0], 7),
        (&[1_001_001], 4),
        (&[3_002, 7], 17),
        (&[40_020], 821),
    ];
    for (tasks, count) in rows {
        for workers in [1, 2, 4] {
            for cap in [1, 2, 64, 4096] {
                check(&rt, rt.alloc(), tasks, count, workers, cap)?;
            }
        }
    }
    Ok(())
}

#[test]
fn many_tasks(rt: HostRuntime) -> Result<(), Fail> {
    for workers in 1..5 {
        check(&rt, rt.alloc(), &[MANY.0], MANY.1, workers, 64)?;
    }
    Ok(())
}

// The workers answer all tasks together, each task once.
#[test]
fn shares(rt: HostRuntime) -> Result<(), Fail> {
    for workers in [1, 3] {
        let (_, counts) = by_threads(&rt, rt.alloc(), &[3], workers, 2, u64::MAX, 0)?;
        assert_eq!(rt; counts, [u64::from(workers), 4, 0]);
    }
    Ok(())
}

// No task is given where a start is refused.
#[test]
fn each_start_refused_in_turn(rt: HostRuntime) -> Result<(), Fail> {
    for refuse in 1..5 {
        let (answer, counts) = by_threads(&rt, rt.alloc(), &[40_020], 4, 2, u64::MAX, refuse)?;
        assert_eq!(rt; answer.err(), Some(LoopFault::Refused));
        assert_eq!(rt; counts, [refuse - 1, 0, 1]);
    }
    Ok(())
}

// A handler that is refused memory has answered so many tasks, and the others no more.
#[test]
fn a_handler_is_refused_memory(rt: HostRuntime) -> Result<(), Fail> {
    for left in [0, 1, 2, 5, 50] {
        for workers in [1, 3] {
            for cap in [1, 64] {
                let (answer, counts) = by_threads(
                    &rt,
                    rt.alloc(),
                    &[40_020],
                    workers,
                    cap,
                    left,
                    0,
                )?;
                assert_eq!(rt; answer.err(), Some(LoopFault::NoMemory));
                let [starts, worked, refused] = counts;
                assert_eq!(rt; (starts, refused), (u64::from(workers), 0));
                assert!(rt;
                    left <= worked && worked <= left * u64::from(workers),
                    "{worked} of {left}"
                );
            }
        }
    }
    Ok(())
}
