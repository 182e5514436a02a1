// Texts in words and in files: printed forms, and what is said of texts that are no network's.
use super::{Host, SOUND, Setting, check_case, check_table, check_twice};
use crate::tests::cases::{Case, case_of, is_call, text_of};
use std::alloc::Global;
use std::test::Fail;

// Texts with their printed forms.
const PRINTED: &str = r#"
check 'pipe( add 01 5 ,id)' |  | 0 | pipe(add 1 5, id)\n |
check 'comb(id,total 01)# the sum\n' |  | 0 | comb(id, total 1)\n |
check 'farm 4 rr(neg 1)' |  | 0 | farm 4 rr (neg 1)\n |
check 'ofarm\t2\r\nod ( id )' |  | 0 | ofarm 2 od (id)\n |
check 'a2a 2(words 1)by 1 03(tallyby 1)' |  | 0 | a2a 2 (words 1) by 1 3 (tallyby 1)\n |
check 'a2a 1(id)rr 1(id)' |  | 0 | a2a 1 (id) rr 1 (id)\n |
check 'wrap 2(halve 1)if 1>-01' |  | 0 | wrap 2 (halve 1) if 1 > -1\n |
check 'pipe(set 2 " x,y # ",if 1<=-5,farm 2 od(pipe(id)))' |  | 0 | pipe(set 2 " x,y # ", if 1 <= -5, farm 2 od (pipe(id)))\n |
check 'skip 0' |  | 0 | skip 0\n |
check '\[15 pipe(]id\[15 )]' |  | 0 | \[15 pipe(]id\[15 )]\n |
"#;

// Texts that are too deep or too long. An unknown name at the depth of 16 isn't too deep, and no form fits a deeper one.
const DEEP_OR_LONG: &str = r#"
check '\[16 pipe(]id\[16 )]' | 1\n | 2 |  | ffrun: byte 75: too deep\n
run '\[16 pipe(]id\[16 )]' | 1\n | 2 |  | ffrun: byte 75: too deep\n
check '\[16 farm 1 rr (]id\[16 )]' | 1\n | 2 |  | ffrun: byte 165: too deep\n
run '\[16 farm 1 rr (]id\[16 )]' | 1\n | 2 |  | ffrun: byte 165: too deep\n
check '\[16 comb(]id\[16 )]' | 1\n | 2 |  | ffrun: byte 75: too deep\n
run '\[16 comb(]id\[16 )]' | 1\n | 2 |  | ffrun: byte 75: too deep\n
check '\[16 a2a 1 (id) od 1 (]id\[16 )]' | 1\n | 2 |  | ffrun: byte 255: too deep\n
run '\[16 a2a 1 (id) od 1 (]id\[16 )]' | 1\n | 2 |  | ffrun: byte 255: too deep\n
check '\[16 pipe(]nothing\[16 )]' | 1\n | 2 |  | ffrun: byte 75: too deep\n
run '\[16 pipe(]nothing\[16 )]' | 1\n | 2 |  | ffrun: byte 75: too deep\n
check '\[15 pipe(]nothing\[15 )]' | 1\n | 2 |  | ffrun: byte 75: unknown name\n
run '\[15 pipe(]nothing\[15 )]' | 1\n | 2 |  | ffrun: byte 75: unknown name\n
check '\[65536 (]' | 1\n | 2 |  | ffrun: byte 0: unexpected token\n
run '\[65536 (]' | 1\n | 2 |  | ffrun: byte 0: unexpected token\n
check '\[65534  ]id ' | 1\n | 2 |  | ffrun: text too long\n
run '\[65534  ]id ' | 1\n | 2 |  | ffrun: text too long\n
"#;

// Texts that are no network, or break a rule.
const REFUSED: &str = r#"
// text faults
check 'add 1' | 1\n | 2 |  | ffrun: byte 5: unexpected end\n
check 'pipe(id,, id)' | 1\n | 2 |  | ffrun: byte 8: unexpected token\n
check 'take 0' | 1\n | 2 |  | ffrun: byte 5: out of range\n
check 'addx 1 1' | 1\n | 2 |  | ffrun: byte 0: unknown name\n
check 'id ?' | 1\n | 2 |  | ffrun: byte 3: bad byte\n
check 'pipe(id,)' | 1\n | 2 |  | ffrun: byte 8: unexpected token\n
check 'pipe(id' | 1\n | 2 |  | ffrun: byte 7: unexpected end\n
check 'pipe(id))' | 1\n | 2 |  | ffrun: byte 8: unexpected token\n
check 'pipe(id, nothing)' | 1\n | 2 |  | ffrun: byte 9: unknown name\n
check 'div 1 0' | 1\n | 2 |  | ffrun: byte 6: out of range\n
check 'add 1 5 6' | 1\n | 2 |  | ffrun: byte 8: unexpected token\n
check 'set 1 x' | 1\n | 2 |  | ffrun: byte 6: unexpected token\n
check 'pipe()' | 1\n | 2 |  | ffrun: byte 5: unexpected token\n
check 'id,' | 1\n | 2 |  | ffrun: byte 2: unexpected token\n
check 'if 1 5 5' | 1\n | 2 |  | ffrun: byte 5: unexpected token\n
check 'set 1 "a\tb"' | 1\n | 2 |  | ffrun: byte 6: bad byte\n
check 'farm 2 (id)' | 1\n | 2 |  | ffrun: byte 7: unexpected token\n
check 'wrap 1 (id) if 1 > +1' | 1\n | 2 |  | ffrun: byte 19: bad byte\n
check 'a2a 2 (id) by 4294967296 2 (id)' | 1\n | 2 |  | ffrun: byte 14: out of range\n
// hostile texts
check '' | 1\n | 2 |  | ffrun: byte 0: unexpected end\n
check 'farm 0 rr (id)' | 1\n | 2 |  | ffrun: rule N3 at top\n
check 'farm 65 rr (id)' | 1\n | 2 |  | ffrun: rule N3 at top\n
check 'farm 4294967296 rr (id)' | 1\n | 2 |  | ffrun: byte 5: out of range\n
check 'add 65 1' | 1\n | 2 |  | ffrun: byte 4: out of range\n
check 'add 1 9223372036854775808' | 1\n | 2 |  | ffrun: byte 6: out of range\n
check 'wrap 1 (id) if 0 > 1' | 1\n | 2 |  | ffrun: rule N14 at top\n
check 'ofarm 2 rr (farm 2 rr (id))' | 1\n | 2 |  | ffrun: rule N8 at 1\n
check 'pipe(id, comb(runsum 1), farm 2 rr (wrap 1 (id) if 1 > 1))' | 1\n | 2 |  | ffrun: rule N13 at 3.1\n
// rules; no text of version One breaks N1, since it would be too deep, or N5, since it would have too many units
check 'farm 64 rr (pipe(id, id))' | 1\n | 2 |  | ffrun: rule N4 at top\n
check 'pipe(id, a2a 1 (id) rr 65 (id))' | 1\n | 2 |  | ffrun: rule N3 at 2\n
check 'a2a 40 (id) rr 50 (id)' | 1\n | 2 |  | ffrun: rule N4 at top\n
check 'comb(id, pipe(id))' | 1\n | 2 |  | ffrun: rule N6 at 2\n
check 'farm 2 rr (pipe(id, comb(neg 1, tally)))' | 1\n | 2 |  | ffrun: rule N7 at 1.2.2\n
check 'pipe(id, ofarm 2 od (comb(id, take 1)))' | 1\n | 2 |  | ffrun: rule N8 at 2.1\n
check 'a2a 2 (total 1) rr 2 (id)' | 1\n | 2 |  | ffrun: rule N9 at 1\n
check 'a2a 2 (id) by 1 2 (comb(tallyby 1))' | 1\n | 2 |  | ffrun: rule N9 at 2\n
check 'pipe(farm 4 rr (id), runsum 1)' | 1\n | 2 |  | ffrun: rule N10 at 2\n
check 'pipe(pipe(id, wrap 1 (id) if 1 > 1), id, pipe(comb(id, number)))' | 1\n | 2 |  | ffrun: rule N10 at 3.1.2\n
check 'a2a 2 (id) by 2 2 (tallyby 1)' | 1\n | 2 |  | ffrun: rule N11 at 2\n
check 'a2a 2 (id) rr 2 (totalby 1 2)' | 1\n | 2 |  | ffrun: rule N11 at 2\n
check 'wrap 2 (pipe(id)) if 1 > 1' | 1\n | 2 |  | ffrun: rule N12 at 1\n
check 'wrap 2 (comb(id, uniq 1)) if 1 > 1' | 1\n | 2 |  | ffrun: rule N12 at 1\n
check 'pipe(pipe(wrap 1 (id) if 1 > 1))' | 1\n | 2 |  | ffrun: rule N13 at 1.1\n
check 'a2a 2 (id) by 65 2 (id)' | 1\n | 2 |  | ffrun: rule N14 at top\n
check 'pipe(id, wrap 1 (id) if 65 > 1)' | 1\n | 2 |  | ffrun: rule N14 at 2\n
// two broken rules
// The lower rule is told, wherever it is broken.
check 'pipe(farm 2 rr (tally), comb(id, pipe(id)))' | 1\n | 2 |  | ffrun: rule N6 at 2.2\n
check 'pipe(farm 2 rr (id), number, ofarm 2 rr (farm 2 rr (id)))' | 1\n | 2 |  | ffrun: rule N8 at 3.1\n
check 'farm 65 rr (comb(pipe(id)))' | 1\n | 2 |  | ffrun: rule N3 at top\n
check 'farm 64 rr (pipe(id, tally))' | 1\n | 2 |  | ffrun: rule N4 at top\n
check 'a2a 1 (id) by 0 1 (tallyby 1)' | 1\n | 2 |  | ffrun: rule N11 at 2\n
check 'pipe(wrap 1 (id) if 0 > 1, farm 1 rr (wrap 1 (id) if 1 > 1))' | 1\n | 2 |  | ffrun: rule N13 at 2.1\n
// Of one rule the first place, a form before its parts.
check 'farm 0 rr (farm 0 rr (id))' | 1\n | 2 |  | ffrun: rule N3 at top\n
check 'pipe(farm 2 rr (comb(tally, take 1)), farm 2 rr (tally))' | 1\n | 2 |  | ffrun: rule N7 at 1.1.1\n
// A fault of the text is told before any rule.
check 'pipe(farm 0 rr (id), id' | 1\n | 2 |  | ffrun: byte 23: unexpected end\n
"#;

// Texts that differ in their blanks and comments.
const BLANKS: &str = r#"
run 'add 1 5' | 1\n | 0 | 6\n |
run 'add 01 5' | 1\n | 0 | 6\n |
run '\tadd\r\n1 5 # five' | 1\n | 0 | 6\n |
run 'pipe(add 1 5)' | 1\n | 0 | 6\n |
run 'pipe ( id,add 1 005 )' | 1\n | 0 | 6\n |
run '# first\npipe(add 1 2, add 1 3)' | 1\n | 0 | 6\n |
"#;

// Calls with a text in the file `net.txt`, which is `neg 1 # sign` and a newline.
const FILES: &str = r#"
run -f net.txt | +07\n-0\n-9223372036854775808\n | 0 | -7\n0\n | ffrun: 1 rejected\n
run -f other.txt | 1\n | 4 |  | ffrun: cannot read other.txt\n
"#;

// A file that is there, and cannot be read.
const FAILING_FILES: &str = "run --file net.txt | 1 | 4 |  | ffrun: cannot read net.txt\\n";

// Files of 65,536 bytes, and of one more.
const FULL_FILES: &str = "run -f net.txt | a | 0 | a\\n |";

const LONG_FILES: &str = "run -f net.txt | a | 2 |  | ffrun: text too long\\n";

// Devices whose first read fails, so that a call that reads ends with another status.
const UNREAD: Setting = Setting { fails: 1, ..SOUND };

// Makes the calls of a table with the file `net.txt`, whose text stands as in a table, and compares.
fn check_file<R: Host>(
    rt: &R,
    alloc: Global,
    table: &str,
    file: &str,
    by: Setting,
) -> Result<(), Fail> {
    let text = text_of(alloc, file)?;
    let file = text.as_bytes();
    check_table(rt, alloc, table, Setting { file, ..by })
}

// What is printed is itself printed so.
fn check_printed<R: Host>(rt: &R, alloc: Global, case: Case) -> Result<(), Fail> {
    let text = text_of(alloc, case.out)?;
    let file = text.as_bytes();
    let words = "-f net.txt";
    check_case(
        rt,
        alloc,
        Case { words, ..case },
        Setting { file, ..UNREAD },
    )
}

#[test]
fn texts_by_tables(rt: HostRuntime) -> Result<(), Fail> {
    let alloc = rt.alloc();
    check_table(&rt, alloc, BLANKS, SOUND)?;
    check_table(&rt, alloc, PRINTED, UNREAD)?;
    check_table(&rt, alloc, DEEP_OR_LONG, UNREAD)?;
    check_twice(&rt, alloc, REFUSED, UNREAD)?;
    for line in PRINTED.lines() {
        if is_call(line) {
            check_printed(&rt, alloc, case_of(line)?)?;
        }
    }
    Ok(())
}

#[test]
fn texts_of_files(rt: HostRuntime) -> Result<(), Fail> {
    let alloc = rt.alloc();
    check_file(&rt, alloc, FILES, "neg 1 # sign\\n", SOUND)?;
    let by = Setting { load: 1, ..SOUND };
    check_file(&rt, alloc, FAILING_FILES, "", by)?;
    // A text may have 65,536 bytes.
    check_file(&rt, alloc, FULL_FILES, "\\[65534  ]id", SOUND)?;
    check_file(&rt, alloc, LONG_FILES, "\\[65534  ]id ", SOUND)
}
