// A thousand random schedules of each of six networks with copies of a node.
use super::opened;
use super::seen::{holds, output, random, rejects, same, sorted};
use super::sieve::{SIEVE, Sieve};
use ff_net::{Net, Route, Sched};
use ff_steps::NetCore;
use std::alloc::Global;
use std::process::Abort;
use std::test::Fail;

// By hand: each record of more than one letter is rejected, the others go on.
const INPUT: &str = "d a bad b c worse a";

const OUTPUT: &[u8] = b"d\na\nb\nc\na\n";

// What comes in any order, by its bytes in order.
const OUTPUT_BYTES: &[u8] = b"\n\n\n\n\naabcd";

const REJECT_BYTES: &[u8] = b"\n\nabdeorsw";

// Networks of copies of one node.
#[derive(Clone, Copy, Debug)]
enum Form {
    Farm(Sched),
    OFarm(Sched),
    // Two nodes on the left and three on the right.
    A2a(Route),
}

// A run: the form of the network, the capacity of its queues, and where its random numbers start.
#[derive(Clone, Copy, Debug)]
struct Run {
    form: Form,
    cap: u32,
    seed: u32,
}

fn network(alloc: Global, form: Form) -> Result<Net<Sieve>, Fail> {
    let node = Box::new(alloc, Net::Leaf(SIEVE))?;
    Ok(match form {
        Form::Farm(sched) => Net::Farm {
            workers: 3,
            sched,
            worker: node,
        },
        Form::OFarm(sched) => Net::OFarm {
            workers: 3,
            sched,
            worker: node,
        },
        Form::A2a(route) => Net::A2a {
            left: 2,
            left_node: node,
            route,
            right: 3,
            right_node: Box::new(alloc, Net::Leaf(SIEVE))?,
        },
    })
}

// Ten numbers from 0 to 14. The parties are 0 to 13 at most.
fn ten(seed: &mut u32) -> [u32; 10] {
    let mut events = [0; 10];
    for event in &mut events {
        *event = random(seed) % 15;
    }
    events
}

// Steps the parties at random, at most a thousand times ten, and answers whether all have ended.
fn runs(core: &mut NetCore<Sieve>, run: Run) -> bool {
    let mut seed = run.seed;
    for _ in 0..1000 {
        if core.run_schedule(&ten(&mut seed)) {
            return true;
        }
    }
    false
}

fn expect_output(
    rt: &impl Abort,
    alloc: Global,
    core: &NetCore<Sieve>,
    run: Run,
) -> Result<(), Fail> {
    let given = output(alloc, core)?;
    if matches!(run.form, Form::OFarm(_)) {
        same(rt, &run, &given, OUTPUT);
    }
    same(rt, &run, &sorted(given)?, OUTPUT_BYTES);
    Ok(())
}

// What is there once all have ended.
fn check_answer(
    rt: &impl Abort,
    alloc: Global,
    core: &mut NetCore<Sieve>,
    run: Run,
) -> Result<(), Fail> {
    expect_output(rt, alloc, core, run)?;
    let rejected = sorted(rejects(alloc, core)?)?;
    same(rt, &run, &rejected, REJECT_BYTES);
    Ok(())
}

fn core_of(rt: &impl Abort, alloc: Global, run: Run) -> Result<NetCore<Sieve>, Fail> {
    opened(rt, alloc, network(alloc, run.form)?, run.cap, INPUT)
}

fn runs_to_the_answer(rt: &impl Abort, alloc: Global, run: Run) -> Result<(), Fail> {
    let mut core = core_of(rt, alloc, run)?;
    holds(rt, &run, "all ended", runs(&mut core, run));
    holds(rt, &run, "memory was there", !core.short_of_memory());
    check_answer(rt, alloc, &mut core, run)
}

fn all_run(rt: &impl Abort, alloc: Global, form: Form) -> Result<(), Fail> {
    for cap in [1, 3] {
        for seed in 1..501 {
            runs_to_the_answer(rt, alloc, Run { form, cap, seed })?;
        }
    }
    Ok(())
}

#[test]
fn copies_of_a_node_give_the_answer(rt: HostRuntime) -> Result<(), Fail> {
    for form in [
        Form::Farm(Sched::Rr),
        Form::Farm(Sched::Od),
        Form::OFarm(Sched::Rr),
        Form::OFarm(Sched::Od),
        Form::A2a(Route::Rr),
        Form::A2a(Route::By(1)),
    ] {
        all_run(&rt, rt.alloc(), form)?;
    }
    Ok(())
}
