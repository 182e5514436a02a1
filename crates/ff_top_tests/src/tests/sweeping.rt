// Runs by sweeps on the calling thread, which start no thread.
use super::threads::check_lines;
use super::{ANY_ORDER, SOUND, Setting, check_table};
use crate::tests::flowing::check_left;
use std::test::Fail;

// Networks that sweep, whose records keep their order.
const SWEPT: &str = r#"
run 'pipe(add 1 1, ofarm 2 rr (if 1 > 2))' | 1\n2\n3\n | 0 | 3\n4\n |
run 'pipe(words 1, ofarm 3 rr (upper 1))' | a b\n\nc\n | 0 | A\nB\nC\n |
run 'ofarm 3 rr (pipe(if 1 < 3, dup 2))' | 5\n1\n4\n2\nx\n | 0 | 1\n1\n2\n2\n | ffrun: 1 rejected\n
run 'pipe(add 1 1, take 2, total 1)' | 1\n2\nz\n4\n | 0 | 5\n | ffrun: 1 rejected\n
run 'comb(total 1, add 1 1)' | 1\n2\n | 0 | 4\n |
run 'pipe(words 1, add 1 1, id)' | \[600 1 2\nx\n] | 0 | \[600 2\n3\n] | ffrun: 600 rejected\n
run id |  | 0 |  |
"#;

// And where they may come in any order.
const SWEPT_ANYHOW: &str = r#"
run 'pipe(words 1, lower 1, a2a 4 (id) by 1 4 (tallyby 1))' | The cat saw the dog\nthe end\n | 0 | cat\t1\ndog\t1\nend\t1\nsaw\t1\nthe\t3\n |
run 'pipe(farm 3 rr (mul 1 3), a2a 2 (id) rr 3 (neg 1))' | 1\n2\nx\n3\n4\n | 0 | -3\n-6\n-9\n-12\n | ffrun: 1 rejected\n
"#;

// Networks that can't be swept. The rules come first, and nothing is read.
const UNSWEPT: &str = r#"
run --sweep 'farm 2 od (id)' | 1\n | 2 |  | ffrun: no sweep for this network\n
run --sweep 'pipe(id, ofarm 2 od (id))' | 1\n | 2 |  | ffrun: no sweep for this network\n
run --sweep 'a2a 2 (id) od 2 (id)' | 1\n | 2 |  | ffrun: no sweep for this network\n
run --sweep --rejects net.txt 'pipe(id, wrap 1 (id) if 1 > 5)' | 1\n | 2 |  | ffrun: no sweep for this network\n
run --sweep 'farm 0 od (id)' | 1\n | 2 |  | ffrun: rule N3 at top\n
run --sweep --one id | 1\n | 1 |  | ffrun: usage: run, check, plan, mdf, dc or soak\n
"#;

// The whole input is read before anything is written.
const FULL: &str = r#"
run --sweep 'pipe(add 1 1, id)' | 1\n2\n3\n | 4 |  | ffrun: write fault\n
"#;

const THIRD_READ_FAILS: &str = r#"
run --sweep 'pipe(add 1 1, farm 2 rr (id), total 1)' | 1\nx\n5\n | 4 | 2\n | ffrun: read fault\nffrun: 1 rejected\n
"#;

// The file of the rejects, in the last column.
const STORED: &str = r#"
run --sweep --rejects bad.txt 'pipe(halve 1, farm 2 rr (add 1 9223372036854775807))' | x\n5\n | 0 |  | ffrun: 3 rejected\n | x\n2\n3\n
run --sweep --cap 1 --rejects bad.txt 'ofarm 2 rr (id)' | \n | 0 | \n |  |
"#;

#[test]
fn networks_that_sweep(rt: HostRuntime) -> Result<(), Fail> {
    for verb in ["run --sweep --cap 1", "run --sweep --cap 3", "run --sweep"] {
        let refusing = Setting { refuse: 1, ..SOUND };
        check_lines(&rt, rt.alloc(), SWEPT, verb, refusing)?;
        check_lines(&rt, rt.alloc(), SWEPT_ANYHOW, verb, ANY_ORDER)?;
    }
    Ok(())
}

#[test]
fn sweeps_that_end_early(rt: HostRuntime) -> Result<(), Fail> {
    let untouched = Setting {
        file: b"as before\n",
        refuse: 1,
        ..SOUND
    };
    check_left(&rt, rt.alloc(), UNSWEPT, untouched, 2)?;
    let full = Setting {
        most: 2,
        out: 0,
        ..SOUND
    };
    check_left(&rt, rt.alloc(), FULL, full, 0)?;
    let broken = Setting {
        most: 2,
        fails: 3,
        ..SOUND
    };
    check_table(&rt, rt.alloc(), THIRD_READ_FAILS, broken)?;
    let stored = Setting {
        stored: "bad.txt",
        ..SOUND
    };
    check_table(&rt, rt.alloc(), STORED, stored)
}
