// A thousand random schedules of each of four networks, whose middle node ends by itself.
use super::narrow::{Narrow, narrow_of};
use super::opened;
use super::seen::{holds, output, random, rejects, same};
use ff_net::Net;
use ff_steps::NetCore;
use std::alloc::Global;
use std::process::Abort;
use std::test::Fail;

// By hand: the first node rejects "bad" and "worse", the middle one ends after "a" and "b", and the last one sends both.
const INPUT: &str = "a bad b c worse d";

const OUTPUT: &[u8] = b"a\nb\n";

const REJECTS: &[u8] = b"bad\nworse\n";

// Networks of these three nodes.
#[derive(Clone, Copy, Debug)]
enum Form {
    // A unit for each.
    Flat,
    // Pipes in a pipe.
    Nested,
    // The first one alone, and the others as one unit.
    Paired,
    // One unit.
    Joined,
}

// A run: the form of the network, the capacity of its queues, and where its random numbers start.
#[derive(Clone, Copy, Debug)]
struct Run {
    form: Form,
    cap: u32,
    seed: u32,
}

fn node(most: u64) -> Net<Narrow> {
    Net::Leaf(narrow_of(most))
}

// The middle node and the last one.
fn others(alloc: Global) -> Result<Vec<Net<Narrow>>, Fail> {
    Ok(vec![in alloc; node(2), node(100)]?)
}

// All three nodes.
fn three(alloc: Global) -> Result<Vec<Net<Narrow>>, Fail> {
    Ok(vec![in alloc; node(100), node(2), node(100)]?)
}

fn pipe(alloc: Global, first: Net<Narrow>, last: Net<Narrow>) -> Result<Net<Narrow>, Fail> {
    Ok(Net::Pipe(vec![in alloc; first, last]?))
}

fn network(alloc: Global, form: Form) -> Result<Net<Narrow>, Fail> {
    match form {
        Form::Flat => Ok(Net::Pipe(three(alloc)?)),
        Form::Nested => {
            let front = Net::Pipe(vec![in alloc; node(100)]?);
            pipe(alloc, front, Net::Pipe(others(alloc)?))
        }
        Form::Paired => pipe(alloc, node(100), Net::Comb(others(alloc)?)),
        Form::Joined => Ok(Net::Comb(three(alloc)?)),
    }
}

// Ten numbers from 0 to 6. The parties are 0 to 4 at most.
fn ten(seed: &mut u32) -> [u32; 10] {
    let mut events = [0; 10];
    for event in &mut events {
        *event = random(seed) % 7;
    }
    events
}

// Runs so many random events, and shows after each ten that the output is a beginning of the expected one.
fn run_tens(
    rt: &impl Abort,
    alloc: Global,
    core: &mut NetCore<Narrow>,
    run: Run,
) -> Result<(), Fail> {
    let mut seed = run.seed;
    for _ in 0..20 {
        core.run_schedule(&ten(&mut seed));
        let text = output(alloc, core)?;
        holds(rt, &(run, &text), "a beginning", OUTPUT.starts_with(&text));
    }
    Ok(())
}

// Sweeps over the parties until all have ended, and answers whether they have.
fn sweeps(core: &mut NetCore<Narrow>) -> bool {
    for _ in 0..100 {
        if core.run_schedule(&[0, 1, 2, 3, 4]) {
            return true;
        }
    }
    false
}

// What is there once all have ended.
fn check_answer(
    rt: &impl Abort,
    alloc: Global,
    core: &mut NetCore<Narrow>,
    run: Run,
) -> Result<(), Fail> {
    let output = output(alloc, core)?;
    same(rt, &run, &output, OUTPUT);
    let rejects = rejects(alloc, core)?;
    same(rt, &run, &rejects, REJECTS);
    holds(rt, &run, "two rejects", core.rejected() == 2);
    holds(rt, &run, "none is left", core.take_reject().is_none());
    Ok(())
}

fn core_of(rt: &impl Abort, alloc: Global, run: Run) -> Result<NetCore<Narrow>, Fail> {
    opened(rt, alloc, network(alloc, run.form)?, run.cap, INPUT)
}

fn runs_to_the_answer(rt: &impl Abort, alloc: Global, run: Run) -> Result<(), Fail> {
    let mut core = core_of(rt, alloc, run)?;
    run_tens(rt, alloc, &mut core, run)?;
    holds(rt, &run, "all ended", sweeps(&mut core));
    holds(rt, &run, "memory was there", !core.short_of_memory());
    holds(rt, &run, "no limit", !core.over());
    check_answer(rt, alloc, &mut core, run)
}

#[test]
fn random_schedules_give_the_one_thread_answer(rt: HostRuntime) -> Result<(), Fail> {
    for form in [Form::Flat, Form::Nested, Form::Paired, Form::Joined] {
        for cap in [1, 2, 64] {
            for seed in 1..335 {
                runs_to_the_answer(&rt, rt.alloc(), Run { form, cap, seed })?;
            }
        }
    }
    Ok(())
}
