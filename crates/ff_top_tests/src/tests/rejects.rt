// Rejected records that are stored in a file.
use super::{SOUND, Setting, check_table};
use std::test::Fail;

// Calls that store what they reject, with a sixth column: the lines of the file, which may come in any order.
const STORED: &str = r#"
run --rejects bad.txt 'add 1 1' | 9223372036854775807\nx\n3 | 0 | 4\n | ffrun: 2 rejected\n | 9223372036854775807\nx\n
// Of two stages.
run --rejects bad.txt 'pipe(halve 1, add 1 9223372036854775807)' | x\n5\n | 0 |  | ffrun: 3 rejected\n | x\n2\n3\n
// Of a farm and a wrap.
run --rejects=bad.txt 'pipe(farm 3 rr (add 1 1), wrap 2 (halve 1) if 1 > 1)' | 1\nx\n9223372036854775807\n | 0 | 1\n1\n | ffrun: 2 rejected\n | x\n9223372036854775807\n
// Of both sets of an all-to-all and of the part behind it, as they come to each.
run --rejects bad.txt 'pipe(a2a 2 (mul 2 10) by 1 2 (totalby 1 2), sub 2 9223372036854775807)' | a\t1\nb\na\t-2\nb\tx\n | 0 |  | ffrun: 3 rejected\n | b\nb\tx\na\t-10\n
// Of a comb, also of what its parts send at the end.
run --rejects bad.txt 'comb(words 1, total 1, mul 1 9223372036854775807)' | 1 2\tz\nx 3\n | 0 |  | ffrun: 2 rejected\n | x\n6\n
// The file is stored where nothing is rejected too.
run --one --rejects bad.txt 'ofarm 2 od (id)' | \n | 0 | \n |  |
"#;

// The file of the text becomes the file of the rejects.
const OVER_THE_TEXT: &str = r#"
run -f net.txt --rejects net.txt | 9223372036854775807\nx\n3 | 0 | 4\n | ffrun: 2 rejected\n | 9223372036854775807\nx\n
"#;

// Calls whose second read fails, and whose store does.
const SECOND_READ_FAILS: &str = r#"
run --rejects bad.txt 'pipe(id, add 1 1)' | x\n1\ny | 4 | 2\n | ffrun: read fault\nffrun: 1 rejected\n | x\n
"#;

const STORE_FAILS: &str = r#"
run --rejects bad.txt 'add 1 1' | 9223372036854775807\nx\n3 | 4 | 4\n | ffrun: cannot write bad.txt\nffrun: 2 rejected\n |
run --one --rejects bad.txt 'add 1 1' | 9223372036854775807\nx\n3 | 4 | 4\n | ffrun: cannot write bad.txt\nffrun: 2 rejected\n |
"#;

// The store is told before the fault of the input.
const BOTH_FAIL: &str = r#"
run --rejects bad.txt 'add 1 1' | 9223372036854775807\nx\n3 | 4 |  | ffrun: cannot write bad.txt\nffrun: 2 rejected\n |
"#;

// Calls that store nothing, so that the file of the rejects holds what it held. The output takes a byte.
const NOTHING_STORED: &str = r#"
run 'add 1 1' --rejects net.txt | x\n1\n | 4 | 2 | ffrun: write fault\n | as before\n
run --tasks 1 --rejects net.txt 'wrap 1 (id) if 1 > 5' | x\n1\n | 3 |  | ffrun: more than 1 tasks\n | as before\n
run --rejects net.txt 'farm 0 rr (id)' | x\n1\n | 2 |  | ffrun: rule N3 at top\n | as before\n
run --rejects net.txt -f other.txt | x\n1\n | 4 |  | ffrun: cannot read other.txt\n | as before\n
run --rejects other.txt 'skip 9' | x\n1\n | 0 |  |  | as before\n
"#;

#[test]
fn files_of_rejects(rt: HostRuntime) -> Result<(), Fail> {
    let alloc = rt.alloc();
    let bad = Setting {
        stored: "bad.txt",
        ..SOUND
    };
    let net = Setting {
        stored: "net.txt",
        ..SOUND
    };
    let file = b"as before\n";
    check_table(&rt, alloc, STORED, Setting { file, ..bad })?;
    let text = b"add 1 1";
    check_table(&rt, alloc, OVER_THE_TEXT, Setting { file: text, ..net })?;
    check_table(&rt, alloc, SECOND_READ_FAILS, Setting { fails: 2, ..bad })?;
    let store = Setting { load: 1, ..bad };
    check_table(&rt, alloc, STORE_FAILS, store)?;
    check_table(&rt, alloc, BOTH_FAIL, Setting { fails: 2, ..store })?;
    let full = Setting { out: 1, ..net };
    check_table(&rt, alloc, NOTHING_STORED, Setting { file, ..full })
}
