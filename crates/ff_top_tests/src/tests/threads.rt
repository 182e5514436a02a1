// Networks by threads: rings of each size, starts that are refused, and what needs no thread.
use super::{ANY_ORDER, Host, SOUND, Setting, check_case, check_table};
use crate::tests::cases::{Case, case_of, is_call};
use crate::tests::flowing::check_left;
use crate::tests::networks;
use std::alloc::Global;
use std::test::Fail;

// Runs with rings of each size.
const SIZES: [&str; 5] = [
    "run --cap 1",
    "run --cap 2",
    "run --cap 64",
    "run --cap 512",
    "run --cap 4096",
];

// Networks of many units. The first has six in a row, and more records than the largest rings hold.
const LINES: &str = r#"
run 'pipe(words 1, add 1 1, comb(mul 1 2, neg 1), pipe(id, id), id)' | \[6000 1 2\nx\n] | 0 | \[6000 -4\n-6\n] | ffrun: 6000 rejected\n
// Nodes that end by themselves, at the front, in the middle and at the end.
run 'pipe(take 2, add 1 1, id)' | \[2000 1\nx\n] | 0 | 2\n | ffrun: 1 rejected\n
run 'pipe(add 1 1, comb(id, take 2), id)' | \[2000 1\nx\n] | 0 | 2\n2\n | ffrun: 2000 rejected\n
run 'pipe(add 1 1, id, take 2)' | \[2000 1\nx\n] | 0 | 2\n2\n | ffrun: 2000 rejected\n
run 'pipe(take 3, take 2, take 1)' | 1\n2\n3\n4\n | 0 | 1\n |
// Nodes that send at the end.
run 'pipe(total 1, add 1 1, tally)' | \[2000 1\nx\n] | 0 | 1\n | ffrun: 2000 rejected\n
// Farms, ordered farms and all-to-alls, before and behind a node that ends by itself, and within one another.
run 'pipe(farm 4 rr (mul 1 3), total 1)' | \[300 1\n2\nx\n] | 0 | 2700\n | ffrun: 300 rejected\n
run 'pipe(farm 3 od (farm 2 rr (add 1 1)), tally)' | \[300 1\nx\n] | 0 | 300\n | ffrun: 300 rejected\n
run 'pipe(ofarm 3 od (add 1 1), take 2, ofarm 2 rr (dup 2))' | 1\n2\n\[300 3\nx\n] | 0 | 2\n2\n3\n3\n | ffrun: 300 rejected\n
run 'pipe(ofarm 64 rr (words 1), number, keep 1, total 1)' | \[200 a b\n\nc\n] | 0 | 180300\n |
run 'pipe(a2a 3 (words 1) by 1 5 (tallyby 1), total 2)' | \[200 a b\nc\n] | 0 | 600\n |
run --tasks 600 'pipe(take 200, wrap 3 (halve 1) if 1 > 1, farm 2 rr (add 1 1), total 1)' | \[300 4\n]x\n | 0 | 1600\n |
run 'pipe(a2a 2 (id) od 3 (add 1 1), a2a 3 (id) rr 1 (neg 1), total 1)' | \[300 1\nx\n] | 0 | -600\n | ffrun: 300 rejected\n
"#;

// Calls of three units, of which one isn't started. Nothing is stored.
const REFUSED: &str = r#"
run 'pipe(add 1 1, id, comb(neg 1, id))' | x\n | 5 |  | ffrun: a thread was refused\n | as before\n
run --rejects net.txt 'pipe(add 1 1, id, comb(neg 1, id))' | x\n | 5 |  | ffrun: a thread was refused\n | as before\n
"#;

// Calls of five units, of which one isn't started.
const REFUSED_FARM: &str = r#"
run 'pipe(id, farm 2 rr (id))' | x\n | 5 |  | ffrun: a thread was refused\n | as before\n
run 'pipe(ofarm 2 od (id), id)' | x\n | 5 |  | ffrun: a thread was refused\n | as before\n
"#;

// Calls of four units, of which one isn't started. Too many tasks would come only later.
const REFUSED_WRAP: &str = r#"
run --tasks 1 'pipe(wrap 2 (halve 1) if 1 > 1, id)' | 9\n | 5 |  | ffrun: a thread was refused\n | as before\n
"#;

// Calls that start no thread.
const ON_ONE_THREAD: &str = r#"
run --one 'pipe(add 1 1, id)' | 1\n | 0 | 2\n |
run --one 'farm 2 rr (add 1 1)' | 1\n2\n | 0 | 2\n3\n |
run --one 'pipe(wrap 1 (id) if 1 > 1, id)' | 1\n | 0 | 1\n |
run --sweep 'farm 2 rr (add 1 1)' | 1\n2\n | 0 | 2\n3\n |
check 'pipe(id, id)' |  | 0 | pipe(id, id)\n |
"#;

#[test]
fn rings_of_each_size(rt: HostRuntime) -> Result<(), Fail> {
    for verb in SIZES {
        check_lines(&rt, rt.alloc(), LINES, verb, SOUND)?;
        check_lines(&rt, rt.alloc(), networks::ORDERED, verb, SOUND)?;
        check_lines(&rt, rt.alloc(), networks::ANY_ORDER, verb, ANY_ORDER)?;
        check_lines(&rt, rt.alloc(), networks::BEYOND, verb, SOUND)?;
    }
    Ok(())
}

/// Makes the calls of a table with these first words, and compares.
pub fn check_lines<R: Host>(
    rt: &R,
    alloc: Global,
    table: &str,
    verb: &str,
    by: Setting,
) -> Result<(), Fail> {
    for line in table.lines() {
        if is_call(line) {
            let case = case_of(line)?;
            check_case(rt, alloc, Case { verb, ..case }, by)?;
        }
    }
    Ok(())
}

// The next read gives the whole input.
#[test]
fn each_start_is_refused(rt: HostRuntime) -> Result<(), Fail> {
    for (table, units) in [(REFUSED, 3), (REFUSED_FARM, 5), (REFUSED_WRAP, 4)] {
        for refuse in 1..=units {
            let by = Setting {
                file: b"as before\n",
                stored: "net.txt",
                refuse,
                ..SOUND
            };
            check_left(&rt, rt.alloc(), table, by, 2)?;
        }
    }
    Ok(())
}

#[test]
fn calls_that_start_no_thread(rt: HostRuntime) -> Result<(), Fail> {
    let first = Setting {
        refuse: 1,
        ..ANY_ORDER
    };
    check_table(&rt, rt.alloc(), ON_ONE_THREAD, first)
}
