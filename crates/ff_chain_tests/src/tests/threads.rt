// Two threads with the two ends of a chain, which sleep without end: a bell that isn't rung would hang them.
ghost use Rattle.std.specs.Prelude.{◌≡◌, ◌≤◌, [], IfOk};
ghost use Rattle.ff_rec.specs.Streams.{IsOpen};

use super::{MANY, ends, fills};
use ff_chain::{ChainIn, ChainOut, chain, settle_chain};
use ff_port::{Inbox, Outbox};
use ff_rec::{Msg, NoMemory};
use ff_ring::Bell;
use std::alloc::Global;
use std::sync::{Arc, Barrier, Wait};
use std::test::Fail;
use std::thread;
use std::thread::Threads;
use std::time::Duration;

// What the writer puts: the numbers below `count`, and an end. The reader sleeps until the first `late` are inside.
#[derive(Clone, Copy)]
struct Stream {
    count: u64,
    late: u64,
    aborts: bool,
}

// What a thread waits by: its bell, and a door at which both threads meet once.
#[derive(Drop)]
struct Side {
    bell: Arc<Bell, Global>,
    door: Arc<Barrier, Global>,
}

// Sleeps until the bell rings, once a try found nothing that began behind an earlier call. It answers whether the next
// try is that one.
fn sleeps(rt: &impl Wait, bell: &Bell, tried: bool) -> bool {
    if tried {
        bell.sleep(rt, Duration::from_secs(u64::MAX));
    } else {
        bell.tries();
    }
    !tried
}

// Puts a stream. Where the reader begins late, it waits at the door for the first messages to be inside.
fn writes(rt: &impl Wait, mut out: ChainOut<u64>, stream: Stream, side: &Side) -> ChainOut<u64>
    requires { IsOpen out.put }
    ensures { result.chain ≡ out.chain }
{
    fills(&mut out, 0, stream.late);
    side.door.wait(rt);
    fills(&mut out, stream.late, stream.count);
    ends(&mut out, stream.aborts);
    hands_over(rt, out, &side.bell)
}

// Hands over what waits.
fn hands_over(rt: &impl Wait, mut out: ChainOut<u64>, bell: &Bell) -> ChainOut<u64>
    ensures { result.chain ≡ out.chain }
{
    let mut tried = false;
    for _ in rt.forever() {
        if out.flush() {
            break;
        }
        tried = sleeps(rt, bell, tried);
    }
    out
}

// Takes messages up to the end. It tells how many numbers came in order, or the greatest number where one didn't, and whether the
// end is an abort.
fn reads(rt: &impl Wait, mut inn: ChainIn<u64>, side: &Side) -> (ChainIn<u64>, (u64, bool))
    ensures { result.0.chain ≡ inn.chain }
{
    side.door.wait(rt);
    let mut next = 0u64;
    let mut tried = false;
    for _ in rt.forever() {
        match inn.try_take() {
            Some(Msg::Item(number)) => {
                next = after(next, number);
                tried = false;
            }
            Some(end) => return (inn, (next, matches!(end, Msg::Abort))),
            None => {
                inn.tell();
                tried = sleeps(rt, &side.bell, tried);
            }
        }
    }
    unreachable!()
}

fn after(next: u64, number: u64) -> u64 {
    if number == next {
        next.saturating_add(1)
    } else {
        u64::MAX
    }
}

// Sends a stream from one thread to another. It tells what came, and whether nothing is left.
fn crosses<R: Threads + Wait + Sync>(
    rt: &R,
    alloc: Global,
    segment: usize,
    eager: bool,
    stream: Stream,
) -> Result<((u64, bool), bool), NoMemory>
    requires some { 1 ≤ segment }
    requires most { segment ≤ 4096 }
{
    let writer = Arc::new(alloc, Bell::new())?;
    let reader = Arc::new(alloc, Bell::new())?;
    let (mut out, mut inn) = chain(
        alloc,
        segment,
        Arc::try_clone(&writer)?,
        Arc::try_clone(&reader)?,
    )?;
    out.set_eager(eager);
    inn.set_eager(eager);
    let door = Arc::new(alloc, Barrier::new(2))?;
    let there = Side {
        bell: writer,
        door: Arc::try_clone(&door)?,
    };
    let here = Side { bell: reader, door };
    let (mut out, (mut inn, came)) = thread::join(
        rt,
        move || -> ChainOut<u64>
            requires { IsOpen out.put }
            ensures { result.chain ≡ out.chain }
        { writes(rt, out, stream, &there) },
        move || -> (ChainIn<u64>, (u64, bool))
            ensures { result.0.chain ≡ inn.chain }
        { reads(rt, inn, &here) },
    );
    let settled = settle_chain(&mut out, &mut inn);
    Ok((came, settled))
}

// Each message comes once, in order, and then the end.
#[test]
fn two_threads(rt: HostRuntime) -> Result<(), Fail> {
    for segment in [1, 2, 64, 512, 4096] {
        for count in [0, 1, 5, 5_000] {
            for (eager, aborts) in [(true, false), (false, true)] {
                let stream = Stream {
                    count,
                    late: 0,
                    aborts,
                };
                let answer = crosses(&rt, rt.alloc(), segment, eager, stream)?;
                assert_eq!(rt; answer, ((count, aborts), true), "at {segment}");
            }
        }
    }
    Ok(())
}

// Many messages, of a reader that keeps up or sleeps until half of them are inside.
#[test]
fn two_threads_for_long(rt: HostRuntime) -> Result<(), Fail> {
    let rows = [
        (1, true, 0, false),
        (1, false, MANY / 2, true),
        (64, true, MANY / 2, false),
    ];
    for (segment, eager, late, aborts) in rows {
        let stream = Stream {
            count: MANY,
            late,
            aborts,
        };
        let answer = crosses(&rt, rt.alloc(), segment, eager, stream)?;
        assert_eq!(rt; answer, ((MANY, aborts), true), "at {segment}");
    }
    Ok(())
}
