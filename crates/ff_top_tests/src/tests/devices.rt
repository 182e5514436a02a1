// Devices that fail, and sources that give few bytes at a time.
ghost use Rattle.std.specs.Prelude.{◌<◌};

use super::{Host, SOUND, Setting, call, check_table, expect_same, expect_status};
use crate::tests::cases::{case_of, words_of};
use std::alloc::Global;
use std::test::Fail;

// Calls whose second read fails: what is due for the whole lines before it was written.
const SECOND_READ_FAILS: &str = r#"
run 'add 1 1' | 1\n2\n3 | 4 | 2\n3\n | ffrun: read fault\n
run 'add 1 1' | 1\nx\n3 | 4 | 2\n | ffrun: read fault\nffrun: 1 rejected\n
run 'total 1' | 1\n2\n3 | 4 | 3\n | ffrun: read fault\n
run --tasks 5 'wrap 2 (halve 1) if 1 > 1' | x\n2\n1 | 4 | 1\n1\n | ffrun: read fault\nffrun: 1 rejected\n
// What is over its limit is told before the fault.
run --tasks 1 'wrap 2 (halve 1) if 1 > 1' | x\n2\n1 | 3 |  | ffrun: more than 1 tasks\n
"#;

// Calls whose output takes three bytes.
const THREE_BYTES: &str = r#"
run 'add 1 1' | 0\n1\n2\n | 4 | 1\n2 | ffrun: write fault\n
run id | 1\n2\n3\n | 4 | 1\n2 | ffrun: write fault\n
// What was rejected is not told then.
run 'add 1 1' | x\n0\n1\n2\n | 4 | 1\n2 | ffrun: write fault\n
run --tasks 5 'wrap 2 (halve 1) if 1 > 1' | x\n2\n | 4 | 1\n1 | ffrun: write fault\n
check id | 1 | 0 | id\n |
check 'farm 2 rr(id)' | 1 | 4 | far | ffrun: write fault\n
plan id | 1 | 4 | 0 s | ffrun: write fault\n
// Nothing is written, so that it doesn't show.
run --tasks 1 'wrap 2 (halve 1) if 1 > 1' | x\n2\n1 | 3 |  | ffrun: more than 1 tasks\n
"#;

// Calls that say something, of which the sink of messages takes five bytes. The status is as ever.
const FIVE_BYTES_TOLD: &str = r#"
run 'add 1 1' | 1\nx | 0 | 2\n | ffrun
walk id |  | 1 |  | ffrun
dc fib 10 |  | 2 |  | ffrun
check 'id id' |  | 2 |  | ffrun
run 'farm 0 rr (id)' |  | 2 |  | ffrun
"#;

// A call, however its input comes in pieces.
const PIECES: &str = r#"
run 'add 2 -5' | a\t5\tb\n\nc\t-12340\nd\n\t999 | 0 | a\t0\tb\nc\t-12345\n\t994\n | ffrun: 2 rejected\n
"#;

#[test]
fn devices_by_tables(rt: HostRuntime) -> Result<(), Fail> {
    let alloc = rt.alloc();
    let read = Setting { fails: 2, ..SOUND };
    check_table(&rt, alloc, SECOND_READ_FAILS, read)?;
    let full = Setting { out: 3, ..SOUND };
    check_table(&rt, alloc, THREE_BYTES, full)?;
    let mute = Setting { err: 5, ..SOUND };
    check_table(&rt, alloc, FIVE_BYTES_TOLD, mute)?;
    for most in [1, 2, 3, 7, 65_536] {
        check_table(&rt, alloc, PIECES, Setting { most, ..SOUND })?;
    }
    Ok(())
}

// What `add 1 1` is to answer to three lines.
#[derive(Clone, Copy)]
struct Want<'a> {
    status: u8,
    out: &'a [u8],
    err: &'a [u8],
}

// Makes the call with these devices, and compares.
fn check_three<R: Host>(rt: &R, alloc: Global, by: Setting, want: Want) -> Result<(), Fail> {
    let words = words_of(alloc, case_of("run 'add 1 1' | | 0 | |")?)?;
    let answer = call(rt, alloc, &words, b"1\n2\n3\n", by)?;
    expect_status(rt, &words, answer.status, want.status);
    expect_same(rt, ("out", &words), answer.out.taken(), want.out);
    expect_same(rt, ("err", &words), answer.err.taken(), want.err);
    Ok(())
}

#[test]
fn each_read_fails(rt: HostRuntime) -> Result<(), Fail> {
    for fails in 1..8 {
        let lines = (fails as usize - 1) / 2;
        let want = Want {
            status: 4,
            out: &b"2\n3\n4\n"[..2 * lines],
            err: b"ffrun: read fault\n",
        };
        let by = Setting {
            most: 1,
            fails,
            ..SOUND
        };
        check_three(&rt, rt.alloc(), by, want)?;
    }
    Ok(())
}

// The output takes the first bytes, and `short` of them at once.
fn check_budget<R: Host>(rt: &R, alloc: Global, short: usize, out: usize) -> Result<(), Fail>
    requires { out < 7 }
{
    let whole = b"2\n3\n4\n";
    let done = out == whole.len();
    let want = Want {
        status: if done { 0 } else { 4 },
        out: &whole[..out],
        err: if done { b"" } else { b"ffrun: write fault\n" },
    };
    let by = Setting {
        out,
        short,
        ..SOUND
    };
    check_three(rt, alloc, by, want)
}

#[test]
fn each_budget_of_the_output(rt: HostRuntime) -> Result<(), Fail> {
    for out in 0..7 {
        check_budget(&rt, rt.alloc(), 1, out)?;
        check_budget(&rt, rt.alloc(), 200_000, out)?;
    }
    Ok(())
}
