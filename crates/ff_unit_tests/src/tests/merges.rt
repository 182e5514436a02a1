// A merge brings the records of all its ins together, those of each in in their order.
ghost use Rattle.std.specs.Prelude.{◌≤◌, length};

use super::{ORDERS, run};
use ff_port::{End, Step};
use ff_test_ports::{Fickle, ports_of, scripts_at};
use ff_unit::{Merge, Unit};
use std::alloc::Global;
use std::process::Abort;
use std::test::Fail;

// What a merge of these ins puts, and how it ends. Memory is there for so many puts.
fn merged(
    alloc: Global,
    scripts: &[&str],
    seed: u32,
    memory: u32,
) -> Result<(String, Option<End>), Fail>
    requires some { 1 ≤ length scripts.now }
    requires few { length scripts.now ≤ 64 }
{
    let mut ports = ports_of(alloc, scripts, 1, seed)?;
    ports.set_memory(memory);
    let mut merge = Merge::new(scripts.len() as u32);
    let end = run(&mut merge, &mut ports);
    Ok((scripts_at(alloc, ports)?, end))
}

// The letters of a script that are among these, in their order.
fn only(alloc: Global, script: &str, letters: &str) -> Result<String, Fail> {
    let mut kept = String::new(alloc);
    for letter in script.chars() {
        if letters.contains(letter) {
            kept.push(letter)?;
        }
    }
    Ok(kept)
}

// How the ends of two ins make the end of a merge, and the last message.
fn end_of(left: &str, right: &str) -> (End, &'static str) {
    if left.ends_with('!') || right.ends_with('!') {
        (End::Abort, "! ")
    } else {
        (End::Eos, ". ")
    }
}

// The out ends as these ins make it end, and has as many messages, or fewer where it was cut off.
fn ends_so(rt: &impl Abort, left: &str, right: &str, seed: u32, out: &str, ended: Option<End>) {
    let (end, last) = end_of(left, right);
    let count = left.len() + right.len();
    let whole = out.len() == count || (end == End::Abort && out.len() < count);
    assert_eq!(rt;
        (ended, out.ends_with(last), whole),
        (Some(end), true, true),
        "{left} {right} {seed}: {out}"
    );
}

// The letters of one in come out in their order, or the first of them where the out was cut off.
fn keeps(
    rt: &impl Abort,
    alloc: Global,
    letters: &str,
    script: &str,
    seed: u32,
    out: &str,
) -> Result<(), Fail> {
    let kept = only(alloc, out, letters)?;
    let all = script.trim_end_matches(['.', '!']);
    let kept_well = if out.ends_with("! ") {
        all.starts_with(kept.as_str())
    } else {
        all == kept.as_str()
    };
    assert!(rt; kept_well, "{seed}: {out}");
    Ok(())
}

// A merge of two ins under one order. Their letters differ.
fn merges_once(
    rt: &impl Abort,
    alloc: Global,
    left: &str,
    right: &str,
    seed: u32,
) -> Result<(), Fail> {
    let (out, ended) = merged(alloc, &[left, right], seed, u32::MAX)?;
    ends_so(rt, left, right, seed, &out, ended);
    keeps(rt, alloc, "abc", left, seed, &out)?;
    keeps(rt, alloc, "DEF", right, seed, &out)
}

// A merge of two ins that end so, under all orders.
fn merges_two(
    rt: &impl Abort,
    alloc: Global,
    letters: (&str, &str),
    ends: (char, char),
) -> Result<(), Fail> {
    let left = format!(in alloc; "{}{}", letters.0, ends.0)?;
    let right = format!(in alloc; "{}{}", letters.1, ends.1)?;
    for seed in 1..=ORDERS {
        merges_once(rt, alloc, &left, &right, seed)?;
    }
    Ok(())
}

// Eos and Abort come at each in at each moment.
#[test]
fn each_in_ends_at_each_moment(rt: HostRuntime) -> Result<(), Fail> {
    for left in ["", "a", "ab", "abc"] {
        for right in ["", "D", "DE", "DEF"] {
            for ends in [('.', '.'), ('.', '!'), ('!', '.'), ('!', '!')] {
                merges_two(&rt, rt.alloc(), (left, right), ends)?;
            }
        }
    }
    Ok(())
}

// So many records went on, and then what this end tells.
fn is_cut(rt: &impl Abort, memory: u32, end: End, seed: u32, out: &str, ended: Option<End>) {
    let last = if end == End::Eos { ". " } else { "! " };
    let count = memory as usize + 2;
    assert_eq!(rt;
        (ended, out.len(), out.ends_with(last)),
        (Some(end), count, true),
        "{memory} {seed}: {out}"
    );
}

// With memory for so many puts, four records are merged and end so, under all orders.
fn runs_out(rt: &impl Abort, alloc: Global, memory: u32, end: End) -> Result<(), Fail> {
    for seed in 1..=ORDERS {
        let (out, ended) = merged(alloc, &["ab.", "DE."], seed, memory)?;
        is_cut(rt, memory, end, seed, &out, ended);
    }
    Ok(())
}

// Memory is there for some records: those go on, and then Abort.
#[test]
fn memory_runs_out_at_each_record(rt: HostRuntime) -> Result<(), Fail> {
    for (memory, end) in [
        (0, End::Memory),
        (1, End::Memory),
        (2, End::Memory),
        (3, End::Memory),
        (4, End::Eos),
    ] {
        runs_out(&rt, rt.alloc(), memory, end)?;
    }
    Ok(())
}

// One in alone; what isn't a record is dropped.
fn merges_one(rt: &impl Abort, alloc: Global, seed: u32) -> Result<(), Fail> {
    let (out, end) = merged(alloc, &["ab|0c."], seed, u32::MAX)?;
    assert_eq!(rt; (out.as_str(), end), ("abc. ", Some(End::Eos)), "{seed}");
    Ok(())
}

// As many ins as may be.
fn merges_sixty_four(rt: &impl Abort, alloc: Global, seed: u32) -> Result<(), Fail> {
    let (out, end) = merged(alloc, &["aa."; 64], seed, u32::MAX)?;
    assert_eq!(rt; (out.len(), end), (130, Some(End::Eos)), "{seed}");
    Ok(())
}

#[test]
fn one_in_and_sixty_four(rt: HostRuntime) -> Result<(), Fail> {
    for seed in 1..=ORDERS {
        merges_one(&rt, rt.alloc(), seed)?;
        merges_sixty_four(&rt, rt.alloc(), seed)?;
    }
    Ok(())
}

// What a merge of one in answers to many steps at once and puts by them, where its ports give all that they have.
fn merged_at_once(alloc: Global, script: &str) -> Result<(Step, String), Fail> {
    let mut ports = ports_of(alloc, &[script], 1, 1)?.into_inner();
    let mut merge = Merge::new(1);
    let answer = merge.step_on(&mut ports);
    Ok((answer, scripts_at(alloc, Fickle::new(ports, 1))?))
}

fn answers_at_once(
    rt: &impl Abort,
    alloc: Global,
    script: &str,
    answer: Step,
    out: &str,
) -> Result<(), Fail> {
    let got = merged_at_once(alloc, script)?;
    assert_eq!(rt; (got.0, got.1.as_str()), (answer, out), "{script}");
    Ok(())
}

// It steps on while it moves. Where it moved and waits then, it has moved.
#[test]
fn many_steps_at_once(rt: HostRuntime) -> Result<(), Fail> {
    for (script, answer, out) in [
        ("", Step::Waits, " "),
        ("ab", Step::Moved, "ab "),
        ("ab.", Step::Ended(End::Eos), "ab. "),
        ("ab!", Step::Ended(End::Abort), "ab! "),
    ] {
        answers_at_once(&rt, rt.alloc(), script, answer, out)?;
    }
    Ok(())
}
