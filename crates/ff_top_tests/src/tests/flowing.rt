// Which networks hand their records on before the input ends.
use super::{Answer, Host, SOUND, Setting, answer_of, check_table, expect_case};
use crate::tests::cases::{Case, case_of, is_call, words_of};
use ff_io::Source;
use std::alloc::Global;
use std::process::Abort;
use std::test::Fail;

// Calls whose output takes nothing, on an input of which a read gives at most two bytes. By threads a result comes when it
// comes: a small ring is full before the end of a long input. The last network is a pipeline of 65 nodes, which are more than
// a comb may have.
const FLOWING: &str = r#"
run 'farm 2 rr (add 1 1)' | 1\n2\n3\n | 4 |  | ffrun: write fault\n
run --one 'comb(add 1 1, id)' | 1\n2\n3\n | 4 |  | ffrun: write fault\n
run --cap 1 'pipe(add 1 1, id)' | \[1000 1\n] | 4 |  | ffrun: write fault\n
run --one 'farm 2 rr (add 1 1)' | 1\n2\n3\n | 4 |  | ffrun: write fault\n
run --one 'pipe(pipe(add 1 1\[32 , add 1 1]), pipe(add 1 1\[31 , add 1 1]))' | 1\n2\n | 4 |  | ffrun: write fault\n
"#;

const WAITING: &str = r#"
run 'wrap 2 (add 1 1) if 1 < 2' | 1\n2\n3\n | 4 |  | ffrun: write fault\n
run --one 'wrap 2 (add 1 1) if 1 < 2' | 1\n2\n3\n | 4 |  | ffrun: write fault\n
"#;

// Calls whose third read fails, on such an input.
const THIRD_READ_FAILS: &str = r#"
run --one 'pipe(pipe(add 1 1\[32 , add 1 1]), pipe(add 1 1\[31 , add 1 1]))' | 1\nx\n | 4 | 66\n | ffrun: read fault\nffrun: 1 rejected\n
run 'pipe(pipe(add 1 1\[32 , add 1 1]), pipe(add 1 1\[31 , add 1 1]))' | 1\nx\n | 4 | 66\n | ffrun: read fault\nffrun: 1 rejected\n
"#;

/// Makes the calls of a table, and compares, also how many bytes the next read gives, of two at most.
pub fn check_left<R: Host>(
    rt: &R,
    alloc: Global,
    table: &str,
    by: Setting,
    left: usize,
) -> Result<(), Fail> {
    for line in table.lines() {
        if is_call(line) {
            check_left_of(rt, alloc, case_of(line)?, by, left)?;
        }
    }
    Ok(())
}

fn check_left_of<R: Host>(
    rt: &R,
    alloc: Global,
    case: Case,
    by: Setting,
    left: usize,
) -> Result<(), Fail> {
    let words = words_of(alloc, case)?;
    let mut answer = answer_of(rt, alloc, &words, case.input, by)?;
    expect_left(rt, &mut answer, left)?;
    expect_case(rt, alloc, &words, &answer, case, by)
}

fn expect_left(rt: &impl Abort, answer: &mut Answer, left: usize) -> Result<(), Fail> {
    let mut room = [0; 2];
    assert_eq!(rt; answer.input.read(&mut room)?, left);
    Ok(())
}

#[test]
fn results_show_before_the_end(rt: HostRuntime) -> Result<(), Fail> {
    let full = Setting {
        most: 2,
        out: 0,
        ..SOUND
    };
    check_left(&rt, rt.alloc(), FLOWING, full, 2)?;
    check_left(&rt, rt.alloc(), WAITING, full, 0)?;
    let broken = Setting {
        most: 2,
        fails: 3,
        ..SOUND
    };
    check_table(&rt, rt.alloc(), THIRD_READ_FAILS, broken)
}
