// Runs of an operation.
use super::{copy_of, operation};
use ff_node::{Next, Node, Sends};
use ff_ops::Op;
use ff_rec::{Record, split};
use std::alloc::Global;
use std::process::Abort;
use std::test::Fail;

/// Each line is a run, with `|` between its parts: an operation, and the records that it takes, sends and rejects, with a
/// `/` behind each.
pub fn check_runs(rt: &impl Abort, alloc: Global, runs: &str) -> Result<(), Fail> {
    for run in runs.lines() {
        check_line(rt, alloc, run)?;
    }
    Ok(())
}

fn check_line(rt: &impl Abort, alloc: Global, run: &str) -> Result<(), Fail> {
    let (op, records) = sides(run)?;
    let (taken, answers) = sides(records)?;
    let (sends, rejects) = sides(answers)?;
    check_run(rt, alloc, op, taken, sends, rejects)
}

// What stands before the first `|`, and behind it.
fn sides(text: &str) -> Result<(&str, &str), Fail> {
    Ok(text.split_once('|').ok_or("a part is missing")?)
}

/// An operation that takes these records sends and rejects these, and so does its copy after that.
pub fn check_run(
    rt: &impl Abort,
    alloc: Global,
    op: &str,
    taken: &str,
    sends: &str,
    rejects: &str,
) -> Result<(), Fail> {
    let want = Want {
        op,
        taken,
        sends,
        rejects,
    };
    check_both(rt, alloc, &mut operation(alloc, op)?, &want)
}

// The words of an operation, and the records that it takes, sends and rejects.
#[derive(Drop)]
struct Want<'a> {
    op: &'a str,
    taken: &'a str,
    sends: &'a str,
    rejects: &'a str,
}

// Runs an operation, and then a copy of it.
fn check_both(rt: &impl Abort, alloc: Global, op: &mut Op, want: &Want) -> Result<(), Fail> {
    check_one(rt, alloc, op, want)?;
    check_one(rt, alloc, &mut copy_of(op)?, want)
}

fn check_one(rt: &impl Abort, alloc: Global, op: &mut Op, want: &Want) -> Result<(), Fail> {
    check_answers(rt, alloc, &mut run(alloc, op, want.taken)?, want)
}

/// Each line is a copy, with `|` between its parts: an operation, the records that it takes before it is copied, those that
/// the copy takes, and what the copy sends, with a `/` behind each record.
pub fn check_copies(rt: &impl Abort, alloc: Global, copies: &str) -> Result<(), Fail> {
    for line in copies.lines() {
        let (op, records) = sides(line)?;
        let (before, rest) = sides(records)?;
        let (taken, sends) = sides(rest)?;
        check_copy(rt, alloc, op, before, taken, sends)?;
    }
    Ok(())
}

// What an operation took stays unknown to its copy, of which nothing is asked before its first record.
fn check_copy(
    rt: &impl Abort,
    alloc: Global,
    op: &str,
    before: &str,
    taken: &str,
    sends: &str,
) -> Result<(), Fail> {
    let mut first = operation(alloc, op)?;
    run(alloc, &mut first, before)?;
    let mut out = go_on(alloc, &mut copy_of(&first)?, taken)?;
    expect_records(
        rt,
        &all_sends(alloc, &mut out)?,
        sends,
        "sent by a copy",
        op,
    );
    Ok(())
}

fn record_of(alloc: Global, line: &str) -> Result<Record, Fail> {
    Ok(Record::of_line(alloc, split(line.as_bytes(), b'\n').0)?)
}

// What a node sends and rejects when it takes these records.
fn run(alloc: Global, node: &mut impl Node, taken: &str) -> Result<Sends, Fail> {
    node.svc_init();
    go_on(alloc, node, taken)
}

// What a node sends and rejects when it takes these records as it stands.
fn go_on(alloc: Global, node: &mut impl Node, taken: &str) -> Result<Sends, Fail> {
    let mut out = Sends::new(alloc, true);
    for line in taken.split_terminator('/') {
        let r = record_of(alloc, line)?;
        if node.svc(r, &mut out)? == Next::Eos {
            break;
        }
    }
    node.eos_notify(&mut out)?;
    Ok(out)
}

fn check_answers(rt: &impl Abort, alloc: Global, out: &mut Sends, want: &Want) -> Result<(), Fail> {
    expect_records(rt, &all_sends(alloc, out)?, want.sends, "sent", want.op);
    expect_records(
        rt,
        &all_rejects(alloc, out)?,
        want.rejects,
        "rejected",
        want.op,
    );
    Ok(())
}

// What was sent or rejected.
fn expect_records(rt: &impl Abort, found: &[u8], want: &str, done: &str, op: &str) {
    assert_eq!(rt; found, want.as_bytes(), "{done} by {op}");
}

// A record with a `/` behind it.
fn show(r: &Record, text: &mut Vec<u8>) -> Result<(), Fail> {
    text.extend_from_slice(r.joined())?;
    text.push(b'/')?;
    Ok(())
}

// What was sent.
fn all_sends(alloc: Global, out: &mut Sends) -> Result<Vec<u8>, Fail> {
    let mut text = Vec::new(alloc);
    for _ in 0..out.len() {
        if let Some(r) = out.take_first() {
            show(&r, &mut text)?;
        }
    }
    Ok(text)
}

// What was rejected.
fn all_rejects(alloc: Global, out: &mut Sends) -> Result<Vec<u8>, Fail> {
    let mut text = Vec::new(alloc);
    for _ in 0..out.rejects() {
        if let Some(r) = out.take_reject() {
            show(&r, &mut text)?;
        }
    }
    Ok(text)
}
