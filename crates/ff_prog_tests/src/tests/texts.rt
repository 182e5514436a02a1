// Texts that are programs, that are none, and that break a rule. Statements are counted by hand.
use super::tables::{expect_told, text_of};
use ff_prog::{ProgFault, check_program, read_program};
use std::alloc::{AllocError, Global};
use std::process::Abort;
use std::test::Fail;

// Texts, and behind a bar what is told of them.
const TEXTS: &str = r#"
a = copy 1; b = add a 1; a = copy 10; c = add a b; out a b c | kept
q r = divmod 7 2; z = div q 0; w = add z 1; out q r w | kept
a=copy 1\nout a | kept
\t a\t =copy\t1 ;; \t\r;out\ta # ; no\n# a\n | kept
a = copy 1; a = copy; out a | Syntax(2)
# a = copy\n\n;; \t\r;a = copy; out a | Syntax(1)
 | Rule { rule: 5, statement: 0 }
a | Syntax(1)
a = | Syntax(1)
= copy 1 | Syntax(1)
a copy 1 | Syntax(1)
a = = copy 1 | Syntax(1)
a = b | Syntax(1)
a = power 1 2 | Syntax(1)
a = Copy 1 | Syntax(1)
a = copy 1 2 | Syntax(1)
a = neg 1 2 | Syntax(1)
a = add 1 | Syntax(1)
a = add 1 2 3 | Syntax(1)
a = min 1 | Syntax(1)
a = pick 1 2 | Syntax(1)
a = pick 1 2 3 4 | Syntax(1)
a = divmod 7 2 | Syntax(1)
a b = div 7 2 | Syntax(1)
a b c = divmod 7 2 | Syntax(1)
a b = divmod 7 | Syntax(1)
out | Syntax(1)
out = copy 1 | Syntax(1)
a out = divmod 1 2 | Syntax(1)
a = copy out | Syntax(1)
a = copy 1; out a out | Syntax(2)
a = copy 1; out a 1 | Syntax(2)
a = copy 1; out a = | Syntax(2)
outs = copy 1; out outs | kept
a = copy +1 | Syntax(1)
a = copy - | Syntax(1)
a = copy 1- | Syntax(1)
a = copy --1 | Syntax(1)
a = copy 007; b = copy -0; out a b | kept
a = copy 9223372036854775807; out a | kept
a = copy 9223372036854775808 | Syntax(1)
a = copy -9223372036854775808; out a | kept
a = copy -9223372036854775809 | Syntax(1)
a = copy 1\r\nout a | Syntax(1)
A = copy 1 | Syntax(1)
_a = copy 1 | Syntax(1)
1a = copy 1 | Syntax(1)
a-b = copy 1 | Syntax(1)
a_1 = copy 1; out a_1 | kept
a23456789a123456789a123456789_12 = copy 1; out a23456789a123456789a123456789_12 | kept
a23456789a123456789a123456789_123 = copy 1 | Syntax(1)
b = add a 1; out b | Rule { rule: 3, statement: 1 }
a = copy 1; b = pick a a c; c = copy 1; out b | Rule { rule: 3, statement: 2 }
a = copy a; out a | Rule { rule: 3, statement: 1 }
a b = divmod a b; out a | Rule { rule: 3, statement: 1 }
a = copy 1; b b = divmod 7 2; c = copy d; out a | Rule { rule: 3, statement: 3 }
a a = divmod 7 2; out a; out b | Rule { rule: 4, statement: 1 }
a = copy 1 | Rule { rule: 5, statement: 0 }
out a; b = copy 1 | Rule { rule: 5, statement: 1 }
a = copy 1; out a; out a | Rule { rule: 5, statement: 2 }
a = copy 1; out b a b | Rule { rule: 5, statement: 2 }
a = copy 1; out b | Rule { rule: 6, statement: 2 }
out b | Rule { rule: 6, statement: 1 }
"#;

/// What is told of a text.
pub(super) fn told(alloc: Global, text: &[u8]) -> Result<String, AllocError> {
    match fault_of(alloc, text) {
        Some(fault) => format!(in alloc; "{fault:?}"),
        None => format!(in alloc; "kept"),
    }
}

// What is wrong with a text, if anything is.
fn fault_of(alloc: Global, text: &[u8]) -> Option<ProgFault> {
    let program = match read_program(alloc, text) {
        Ok(program) => program,
        Err(fault) => return Some(fault),
    };
    check_program(alloc, program).err()
}

/// What is told of a text is what is wanted.
pub(super) fn check(rt: &impl Abort, alloc: Global, text: &[u8], want: &str) -> Result<(), Fail> {
    let found = told(alloc, text)?;
    expect_told(rt, text, found.as_bytes(), want.as_bytes());
    Ok(())
}

#[test]
fn texts(rt: HostRuntime) -> Result<(), Fail> {
    let mut tried = 0u64;
    for line in TEXTS.lines() {
        if let Some((text, want)) = line.split_once(" | ") {
            let text = text_of(rt.alloc(), text)?;
            check(&rt, rt.alloc(), text.as_bytes(), want)?;
            tried = tried.saturating_add(1);
        }
    }
    assert_eq!(&rt; tried, 63);
    Ok(())
}
