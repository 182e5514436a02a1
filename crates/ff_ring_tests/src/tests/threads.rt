// Two threads with the two ends of a ring, which sleep without end: a bell that isn't rung would hang them, be it for each bundle or
// for several.
ghost use Rattle.std.specs.Prelude.{◌≡◌, ◌≤◌, [], IfOk};
ghost use Rattle.ff_rec.specs.Streams.{IsOpen};
ghost use Rattle.ff_ring.specs.Ends.{put_of, written_ring, read_ring};

use super::{fills, puts};
use ff_port::{Inbox, Outbox, OwnPorts, Ports, Put};
use ff_rec::{Msg, NoMemory};
use ff_ring::{Bell, Pause, RingIn, RingOut, Spins, ring, settle};
use std::alloc::Global;
use std::sync::{Arc, Wait};
use std::test::Fail;
use std::thread::Threads;
use std::time::Duration;
use std::{hint, thread};

// Sleeps until the bell rings, once a try found nothing that began behind an earlier call. It answers whether the next try is that one.
fn sleeps(rt: &impl Wait, bell: &Bell, tried: bool) -> bool {
    if tried {
        bell.sleep(rt, Duration::from_secs(u64::MAX));
    } else {
        bell.tries();
    }
    !tried
}

// Puts the numbers below `count`, and Eos behind them.
fn writes(rt: &impl Wait, mut out: RingOut<u64>, count: u64, bell: &Bell) -> RingOut<u64>
    requires { IsOpen (put_of out) }
    ensures { written_ring result ≡ written_ring out }
{
    let mut next = 0;
    let mut tried = false;
    for _ in rt.forever() {
        if next == count {
            break;
        }
        if puts(&mut out, next) {
            next += 1;
            tried = false;
        } else {
            out.flush();
            tried = sleeps(rt, bell, tried);
        }
    }
    ends(rt, out, bell)
}

// Puts Eos, and hands over what waits.
fn ends(rt: &impl Wait, mut out: RingOut<u64>, bell: &Bell) -> RingOut<u64>
    requires { IsOpen (put_of out) }
    ensures { written_ring result ≡ written_ring out }
{
    let mut tried = false;
    for _ in rt.forever() {
        if matches!(out.try_put(Msg::Eos), Put::Done) {
            break;
        }
        out.flush();
        tried = sleeps(rt, bell, tried);
    }
    hands_over(rt, out, bell)
}

// Hands over what waits.
fn hands_over(rt: &impl Wait, mut out: RingOut<u64>, bell: &Bell) -> RingOut<u64>
    ensures { written_ring result ≡ written_ring out }
{
    let mut tried = false;
    for _ in rt.forever() {
        if out.flush() {
            break;
        }
        tried = sleeps(rt, bell, tried);
    }
    out
}

// Takes messages up to Eos, and tells how many numbers came in order, or the greatest number where one didn't.
fn reads(rt: &impl Wait, mut inn: RingIn<u64>, bell: &Bell) -> (RingIn<u64>, u64)
    ensures { read_ring result.0 ≡ read_ring inn }
{
    let mut next = 0u64;
    let mut tried = false;
    for _ in rt.forever() {
        match inn.try_take() {
            Some(Msg::Item(number)) => {
                next = after(next, number);
                tried = false;
            }
            Some(_) => break,
            None => tried = sleeps(rt, bell, tried),
        }
    }
    (inn, next)
}

fn after(next: u64, number: u64) -> u64 {
    if number == next {
        next.saturating_add(1)
    } else {
        u64::MAX
    }
}

// Sends so many numbers from one thread to another. It tells how many came in order, and whether nothing is left.
fn crosses<R: Threads + Wait + Sync>(
    rt: &R,
    alloc: Global,
    cap: usize,
    eager: bool,
    count: u64,
) -> Result<(u64, bool), NoMemory>
    requires some { 1 ≤ cap }
    requires most { cap ≤ 4097 }
{
    let writer = Arc::new(alloc, Bell::new())?;
    let reader = Arc::new(alloc, Bell::new())?;
    let (mut out, mut inn) = ring(
        alloc,
        cap,
        Arc::try_clone(&writer)?,
        Arc::try_clone(&reader)?,
    )?;
    out.set_eager(eager);
    inn.set_eager(eager);
    let (mut out, (mut inn, came)) = thread::join(
        rt,
        move || -> RingOut<u64>
            requires { IsOpen (put_of out) }
            ensures { written_ring result ≡ written_ring out }
        { writes(rt, out, count, &writer) },
        move || -> (RingIn<u64>, u64)
            ensures { read_ring result.0 ≡ read_ring inn }
        { reads(rt, inn, &reader) },
    );
    let settled = settle(&mut out, &mut inn);
    Ok((came, settled))
}

#[test]
fn two_threads(rt: HostRuntime) -> Result<(), Fail> {
    for cap in [1, 2, 64, 512, 4096] {
        for count in [0, 1, 5, 20_000] {
            for eager in [true, false] {
                let answer = crosses(&rt, rt.alloc(), cap, eager, count)?;
                assert_eq!(rt; answer, (count, true), "at {cap}");
            }
        }
    }
    Ok(())
}

// Takes one message, and pauses until it comes.
fn waits(rt: &impl Wait, mut inn: RingIn<u64>, mut pause: Pause) -> bool {
    for _ in rt.forever() {
        if let Some(m) = inn.try_take() {
            return matches!(m, Msg::Eos);
        }
        // Nothing waits to be handed over.
        let _ = pause.rest(rt);
    }
    unreachable!()
}

// Puts Eos once the other thread was seen to rest, and tells whether it is seen to rest after that.
fn wakes(rt: &impl Wait, mut out: RingOut<u64>, other: &Bell) -> bool
    requires { IsOpen (put_of out) }
{
    for _ in rt.forever() {
        if other.notes_rest() && other.still_rests() {
            break;
        }
        hint::spin_loop();
    }
    out.try_put(Msg::Eos);
    other.notes_rest()
}

// A thread is seen to rest while it waits, and no longer once something was handed over to it.
#[test]
fn a_rest_is_seen(rt: HostRuntime) -> Result<(), Fail> {
    let rt = &rt;
    let alloc = rt.alloc();
    for _ in 0..200 {
        let writer = Arc::new(alloc, Bell::new())?;
        let reader = Arc::new(alloc, Bell::new())?;
        let pause = Pause::new(Arc::try_clone(&reader)?, Spins::Few, false);
        let (out, inn) = ring(alloc, 4, writer, Arc::try_clone(&reader)?)?;
        let answers = thread::join(
            rt,
            move || -> bool
                requires { IsOpen (put_of out) }
            { wakes(rt, out, &reader) },
            move || waits(rt, inn, pause),
        );
        assert_eq!(rt; answers, (false, true));
    }
    Ok(())
}

// Naps three times, as where something is done behind each nap, and tells the other thread.
fn naps(rt: &impl Wait, mut out: RingOut<u64>, mut pause: Pause) -> bool
    requires { IsOpen (put_of out) }
{
    for k in 0..27 {
        if k % 9 == 0 {
            pause.reset();
        }
        let _ = pause.rest(rt);
    }
    matches!(out.try_put(Msg::Eos), Put::Done)
}

// Tells whether the other thread was ever seen to rest before it put Eos.
fn sees_rest(rt: &impl Wait, mut inn: RingIn<u64>, other: &Bell) -> bool {
    let mut seen = false;
    for _ in rt.forever() {
        seen = seen || other.notes_rest();
        if inn.try_take().is_some() {
            break;
        }
        hint::spin_loop();
    }
    seen
}

// A thread that naps may have something to hand over, and isn't seen to rest.
#[test]
fn a_nap_is_no_rest(rt: HostRuntime) -> Result<(), Fail> {
    let rt = &rt;
    let alloc = rt.alloc();
    for _ in 0..20 {
        let writer = Arc::new(alloc, Bell::new())?;
        let reader = Arc::new(alloc, Bell::new())?;
        let pause = Pause::new(Arc::try_clone(&writer)?, Spins::Few, true);
        let (out, inn) = ring(alloc, 4, Arc::try_clone(&writer)?, reader)?;
        let answers = thread::join(
            rt,
            move || -> bool
                requires { IsOpen (put_of out) }
            { naps(rt, out, pause) },
            move || sees_rest(rt, inn, &writer),
        );
        assert_eq!(rt; answers, (true, false));
    }
    Ok(())
}

// A try at an in, where there is one.
fn takes_at(ports: &mut OwnPorts<RingIn<u64>, RingOut<u64>, u64>, k: usize) -> bool {
    k < ports.ins() && ports.try_take(k).is_some()
}

// Takes a few messages once the writer is seen to rest, flushes its ports as before a rest, and rests until the other ring has one.
fn takes_a_few(
    rt: &impl Wait,
    mut ports: OwnPorts<RingIn<u64>, RingOut<u64>, u64>,
    bell: &Bell,
    writer: &Bell,
) -> u64 {
    for _ in rt.forever() {
        if writer.notes_rest() {
            break;
        }
        hint::spin_loop();
    }
    let mut taken = 0u64;
    for _ in 0..33 {
        if takes_at(&mut ports, 0) {
            taken = taken.saturating_add(1);
        }
    }
    ports.flush();
    let mut tried = false;
    for _ in rt.forever() {
        if takes_at(&mut ports, 1) {
            break;
        }
        tried = sleeps(rt, bell, tried);
    }
    taken
}

// Puts numbers until there is no room, sleeps until there is some, and puts one message on the other ring then.
fn fills_and_waits(
    rt: &impl Wait,
    mut out: RingOut<u64>,
    mut other: RingOut<u64>,
    bell: &Bell,
) -> bool
    requires open { IsOpen (put_of out) }
    requires other { IsOpen (put_of other) }
{
    fills(&mut out);
    let mut tried = false;
    for _ in rt.forever() {
        if puts(&mut out, 0) {
            break;
        }
        tried = sleeps(rt, bell, tried);
    }
    matches!(other.try_put(Msg::Eos), Put::Done)
}

// The ends of two rings that don't tell of each bundle and block, from one thread to another.
fn two_rings(
    alloc: Global,
    writer: &Arc<Bell, Global>,
    reader: &Arc<Bell, Global>,
) -> Result<
    (
        RingOut<u64>,
        RingOut<u64>,
        OwnPorts<RingIn<u64>, RingOut<u64>, u64>,
    ),
    NoMemory,
>
    ensures first { IfOk result (λ r. put_of r.0 ≡ []) }
    ensures second { IfOk result (λ r. put_of r.1 ≡ []) }
{
    let (mut out, mut inn) = ring(alloc, 512, Arc::try_clone(writer)?, Arc::try_clone(reader)?)?;
    let (other, last) = ring(alloc, 512, Arc::try_clone(writer)?, Arc::try_clone(reader)?)?;
    out.set_eager(false);
    inn.set_eager(false);
    let mut ins = Vec::with_capacity(alloc, 2)?;
    ins.push(inn)?;
    ins.push(last)?;
    Ok((out, other, OwnPorts::new(ins, Vec::new(alloc))))
}

// Two blocks of sixteen came back, of which an end that gathers doesn't tell by itself. A unit that flushes its ports before it rests tells
// of them, so that the writer wakes.
#[test]
fn a_rest_leaves_no_room_untold(rt: HostRuntime) -> Result<(), Fail> {
    let rt = &rt;
    let alloc = rt.alloc();
    let writer = Arc::new(alloc, Bell::new())?;
    let reader = Arc::new(alloc, Bell::new())?;
    let (out, other, ports) = two_rings(alloc, &writer, &reader)?;
    let bell = Arc::try_clone(&writer)?;
    let answers = thread::join(
        rt,
        move || -> bool
            requires open { IsOpen (put_of out) }
            requires other { IsOpen (put_of other) }
        { fills_and_waits(rt, out, other, &writer) },
        move || takes_a_few(rt, ports, &reader, &bell),
    );
    assert_eq!(rt; answers, (true, 33));
    Ok(())
}
