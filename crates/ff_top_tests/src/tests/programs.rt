// Programs: what they put out, what is refused, and each start that is.
use super::{SOUND, Setting, check_table};
use crate::tests::flowing::check_left;
use std::test::Fail;

// Programs, by one worker and by many.
const PROGRAMS: &str = r#"
mdf 'a = copy 1; b = add a 1; a = copy 10; c = add a b; out a b c' | 1\n | 0 | a\t10\nb\t2\nc\t12\n |
mdf --workers 1 'a = copy 1; b = add a 1; a = copy 10; c = add a b; out a b c' | 1\n | 0 | a\t10\nb\t2\nc\t12\n |
mdf --workers 64 'q r = divmod 7 2; z = div q 0; w = add z 1; out q r w' | 1\n | 0 | q\t3\nr\t1\nw\tbad\n |
mdf 'a = copy -9223372036854775808; b = neg a; c = min a 0; out b c' | 1\n | 0 | b\tbad\nc\t-9223372036854775808\n |
// The first fault of the text, or the lowest rule that is broken.
mdf 'b = add a 1; out b' | 1\n | 2 |  | ffrun: statement 1: rule M3\n
mdf 'a = copy 1; b copy 2; out a' | 1\n | 2 |  | ffrun: statement 2: syntax\n
mdf 'a = copy 1' | 1\n | 2 |  | ffrun: statement 0: rule M5\n
mdf 'a = copy 1; out a b' | 1\n | 2 |  | ffrun: statement 2: rule M6\n
mdf 'a a = divmod 7 2; out a' | 1\n | 2 |  | ffrun: statement 1: rule M4\n
// Words, files and what is no program.
mdf | 1\n | 1 |  | ffrun: usage: run, check, plan, mdf, dc or soak\n
mdf --workers 65 'a = copy 1; out a' | 1\n | 1 |  | ffrun: usage: run, check, plan, mdf, dc or soak\n
mdf -f other.txt | 1\n | 4 |  | ffrun: cannot read other.txt\n
"#;

// A program in a file, with a comment and empty lines.
const IN_A_FILE: &str = r#"
mdf -f net.txt | 1\n | 0 | price\t1190\n |
mdf --file net.txt --workers 2 | 1\n | 0 | price\t1190\n |
"#;

// Calls of three workers, of which one isn't started. The input isn't read.
const REFUSED: &str = r#"
mdf --workers 3 'a = copy 1; b = add a 1; out a b' | x\n | 5 |  | ffrun: a thread was refused\n | as before\n
"#;

// Calls whose output takes three bytes.
const THREE_BYTES: &str = r#"
mdf 'a = copy 1; b = add a 1; out a b' | 1\n | 4 | a\t1 | ffrun: write fault\n
"#;

#[test]
fn programs(rt: HostRuntime) -> Result<(), Fail> {
    let alloc = rt.alloc();
    check_table(&rt, alloc, PROGRAMS, SOUND)?;
    let file = Setting {
        file: b"# what it costs\n\nnet = copy 1000 ; tax = div 1900 10\n\t\nprice = add net tax\nout price\n",
        ..SOUND
    };
    check_table(&rt, alloc, IN_A_FILE, file)?;
    check_table(&rt, alloc, THREE_BYTES, Setting { out: 3, ..SOUND })
}

#[test]
fn programs_whose_workers_are_refused(rt: HostRuntime) -> Result<(), Fail> {
    for refuse in 1..4 {
        let by = Setting {
            file: b"as before\n",
            stored: "net.txt",
            refuse,
            ..SOUND
        };
        check_left(&rt, rt.alloc(), REFUSED, by, 2)?;
    }
    Ok(())
}
