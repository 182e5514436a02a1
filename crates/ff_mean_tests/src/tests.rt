// What no clause says: that memory is there, so that each call does its work, and that the clauses mean these records.
mod networks;
mod shown;

use ff_mean::{Outcome, run_one};
use ff_net::{Checked, Net, Version, check};
use ff_ops::Op;
use networks::{a2a, add_and_double, comb, op, pipe, wrap};
use shown::{expect, records};
use std::alloc::Global;
use std::process::Abort;
use std::test::Fail;

// The network, which keeps all rules.
fn checked(net: Net<Op>) -> Result<Checked<Op>, Fail> {
    Ok(check(net, Version::One).ok().ok_or("refused")?)
}

// Runs a network over records with a `/` behind each.
fn run(alloc: Global, net: Net<Op>, limit: u64, keep: bool, lines: &str) -> Result<Outcome, Fail> {
    let net = checked(net)?;
    Ok(run_one(alloc, &net, limit, keep, records(alloc, lines)?)?)
}

// Each 5 becomes a 3, which doesn't come back.
fn run_pipe(alloc: Global, keep: bool) -> Result<Outcome, Fail> {
    let first = op(alloc, "add", &[1, 1])?;
    let last = wrap(alloc, op(alloc, "add", &[1, -2])?, 5)?;
    run(alloc, pipe(alloc, first, last)?, 1, keep, "4/x/")
}

#[test]
fn a_pipe_with_a_wrap(rt: HostRuntime) -> Result<(), Fail> {
    let alloc = rt.alloc();
    expect(&rt, alloc, &run_pipe(alloc, true)?, "3/", 1, "x/")?;
    expect(&rt, alloc, &run_pipe(alloc, false)?, "3/", 1, "")
}

// Two tasks are fed, and each loses its second field and comes back, of which the worker has none to drop then.
fn run_four_tasks(alloc: Global, limit: u64) -> Result<Outcome, Fail> {
    let net = wrap(alloc, op(alloc, "drop", &[2])?, 7)?;
    run(alloc, net, limit, true, "7\ta/7\tb/")
}

fn expect_over(rt: &impl Abort, run: &Outcome) {
    assert!(rt; matches!(run, Outcome::Over));
}

#[test]
fn a_wrap_at_its_limit(rt: HostRuntime) -> Result<(), Fail> {
    let alloc = rt.alloc();
    expect(&rt, alloc, &run_four_tasks(alloc, 4)?, "", 2, "7/7/")?;
    // One short, and what is fed alone.
    expect_over(&rt, &run_four_tasks(alloc, 3)?);
    expect_over(&rt, &run_four_tasks(alloc, 1)?);
    Ok(())
}

fn run_comb(alloc: Global) -> Result<Outcome, Fail> {
    let (first, second) = add_and_double(alloc)?;
    let net = wrap(alloc, comb(alloc, first, second)?, 5)?;
    run(alloc, net, 2, true, "1/x/")
}

#[test]
fn a_wrap_of_several_nodes(rt: HostRuntime) -> Result<(), Fail> {
    expect(&rt, rt.alloc(), &run_comb(rt.alloc())?, "4/", 1, "x/")
}

fn run_a2a(alloc: Global) -> Result<Outcome, Fail> {
    let (left, right) = add_and_double(alloc)?;
    run(alloc, a2a(alloc, left, right)?, 0, false, "1/x/")
}

#[test]
fn an_all_to_all(rt: HostRuntime) -> Result<(), Fail> {
    expect(&rt, rt.alloc(), &run_a2a(rt.alloc())?, "4/", 1, "")
}

// One node, over two numbers and a record that is none.
fn run_node(alloc: Global, name: &str) -> Result<Outcome, Fail> {
    run(alloc, op(alloc, name, &[1])?, 0, true, "1/2/x/")
}

#[test]
fn how_nodes_end(rt: HostRuntime) -> Result<(), Fail> {
    let alloc = rt.alloc();
    // It ends at the first, and takes no more.
    expect(&rt, alloc, &run_node(alloc, "take")?, "1/", 0, "")?;
    expect(&rt, alloc, &run_node(alloc, "total")?, "3/", 1, "x/")
}
