// A thousand random schedules of each of four networks with feedback, and of some that are cut off.
use super::doubling::Doubling;
use super::seen::{holds, output, random, rejects, same, sorted};
use super::wrap_nets::{Form, network};
use super::{checked, records};
use ff_steps::NetCore;
use std::alloc::Global;
use std::process::Abort;
use std::test::Fail;

// By hand: "5" gives two tasks "3", each of these two "1", and each "1" two results "a". So there are 7 tasks from "5", 3 from
// "3", one that is rejected, and "b", which is a task and then a result: 12 tasks and 13 results.
const INPUT: &str = "5 7 b 3";

const TASKS: u64 = 12;

const OUTPUT_BYTES: &[u8] = b"\n\n\n\n\n\n\n\n\n\n\n\n\naaaaaaaaaaaab";

const REJECTS: &[u8] = b"7\n";

// A run: the network, the capacity of its queues, its task limit, and where its random numbers start.
#[derive(Clone, Copy, Debug)]
struct Run {
    form: Form,
    cap: u32,
    limit: u64,
    seed: u32,
}

// The core of a network before its first event.
fn opened(rt: &impl Abort, alloc: Global, run: Run) -> Result<NetCore<Doubling>, Fail> {
    let checked = checked(network(alloc, run.form)?)?;
    assert!(rt; 1 <= run.cap && run.cap <= 4096);
    let input = records(alloc, INPUT)?;
    Ok(NetCore::new(alloc, checked, run.cap, run.limit, true, input)?)
}

// Ten numbers from 0 to 7. The parties are 0 to 6 at most.
fn ten(seed: &mut u32) -> [u32; 10] {
    let mut events = [0; 10];
    for event in &mut events {
        *event = random(seed) % 8;
    }
    events
}

// Steps the parties at random, at most two thousand times ten, and answers whether all have ended.
fn runs(core: &mut NetCore<Doubling>, run: Run) -> bool {
    let mut seed = run.seed;
    for _ in 0..2000 {
        if core.run_schedule(&ten(&mut seed)) {
            return true;
        }
    }
    false
}

// The output and the rejects are right.
fn check_answer(
    rt: &impl Abort,
    alloc: Global,
    core: &mut NetCore<Doubling>,
    run: Run,
) -> Result<(), Fail> {
    let given = sorted(output(alloc, core)?)?;
    same(rt, &run, &given, OUTPUT_BYTES);
    let rejected = rejects(alloc, core)?;
    same(rt, &run, &rejected, REJECTS);
    Ok(())
}

// All have ended, with memory, and the limit was passed as told; where it wasn't, the output and the rejects are right.
fn ends(rt: &impl Abort, alloc: Global, run: Run) -> Result<(), Fail> {
    let mut core = opened(rt, alloc, run)?;
    holds(rt, &run, "all ended", runs(&mut core, run));
    holds(rt, &run, "memory was there", !core.short_of_memory());
    let over = core.over();
    holds(rt, &run, "the limit", over == (run.limit < TASKS));
    if over {
        return Ok(());
    }
    check_answer(rt, alloc, &mut core, run)
}

fn all_end(rt: &impl Abort, alloc: Global, form: Form, limit: u64) -> Result<(), Fail> {
    for cap in [1, 2, 64] {
        for seed in 1..335 {
            let run = Run {
                form,
                cap,
                limit,
                seed,
            };
            ends(rt, alloc, run)?;
        }
    }
    Ok(())
}

// A wrap of one worker, one of three at its limit and past it, and one between two nodes.
#[test]
fn wraps_give_the_answer(rt: HostRuntime) -> Result<(), Fail> {
    for (form, limit) in [
        (Form::Alone(1), 1000),
        (Form::Alone(3), TASKS),
        (Form::Alone(3), TASKS - 1),
        (Form::Between, TASKS + 1),
    ] {
        all_end(&rt, rt.alloc(), form, limit)?;
    }
    Ok(())
}

// Where a node before the wrap or a worker gives up, Abort goes on to all, and all end.
fn is_cut_off(rt: &impl Abort, alloc: Global, run: Run) -> Result<(), Fail> {
    let mut core = opened(rt, alloc, run)?;
    holds(rt, &run, "all ended", runs(&mut core, run));
    holds(rt, &run, "memory was short", core.short_of_memory());
    holds(rt, &run, "the limit", !core.over());
    Ok(())
}

fn all_are_cut_off(rt: &impl Abort, alloc: Global, form: Form) -> Result<(), Fail> {
    for cap in [1, 2, 64] {
        for seed in 1..49 {
            let run = Run {
                form,
                cap,
                limit: 1000,
                seed,
            };
            is_cut_off(rt, alloc, run)?;
        }
    }
    Ok(())
}

// An Abort from each side, at the first record and at later ones, and at tasks that workers spawned: a thousand schedules.
#[test]
fn a_wrap_that_is_cut_off(rt: HostRuntime) -> Result<(), Fail> {
    for at in [5, 7, 3] {
        all_are_cut_off(&rt, rt.alloc(), Form::Broken(at))?;
    }
    for at in [5, 7, 3, 1] {
        all_are_cut_off(&rt, rt.alloc(), Form::Weak(at))?;
    }
    Ok(())
}
