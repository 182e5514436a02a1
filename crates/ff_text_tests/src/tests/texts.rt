// What no clause says: that networks are read while memory is there. The texts and places are counted by hand.
use super::tables::expect_told;
use ff_text::{ReadFault, read_net};
use std::alloc::{AllocError, Global};
use std::process::Abort;
use std::test::Fail;

// Texts that are no networks, and behind a bar the place and the kind of their first fault.
const FAULTS: &str = r#"
add 1 | 5 End
pipe(id,, id) | 8 BadToken
take 0 | 5 Range
addx 1 1 | 0 UnknownName
id ? | 3 BadByte
 | 0 End
farm 4294967296 rr (id) | 5 Range
farm -1 rr (id) | 5 Range
farm two rr (id) | 5 BadToken
farm 2 ordered (id) | 7 BadToken
farm 2 rr id | 10 BadToken
farm 2 rr (id | 13 End
farm 2 rr (farm) | 15 BadToken
add 65 1 | 4 Range
add 0 1 | 4 Range
add < 1 | 4 BadToken
add 1 9223372036854775808 | 6 Range
div 1 0 | 6 Range
set 1 5 | 6 BadToken
set 1 99999999999999999999 | 6 BadToken
set 1 "a | 6 BadByte
if 1 5 5 | 5 BadToken
if 1 ! 5 | 5 BadByte
id id | 3 BadToken
id; id | 2 BadByte
pipe(id; id) | 7 BadByte
; id | 0 BadByte
w | 0 UnknownName
id ) | 3 BadToken
pipe | 4 End
pipe() | 5 BadToken
pipe(id,) | 8 BadToken
pipe(id, nothing) | 9 UnknownName
comb(id id) | 8 BadToken
5 | 0 BadToken
- | 0 BadByte
Id | 0 BadByte
a2a 2 (id) on 3 (id) | 11 BadToken
a2a 2 (id) by 3 (id) | 16 BadToken
a2a 2 (id) by -1 3 (id) | 14 Range
wrap 2 (id) of 1 > 1 | 12 BadToken
wrap 2 (id) if 1 1 | 17 BadToken
wrap 2 (id) if 1 > x | 19 BadToken
ffrun2 id | 0 UnknownName
let w = id; w | 0 UnknownName
call 1 "cube" | 0 UnknownName
 # id | 5 End
id, | 2 BadToken
id 1 | 3 BadToken
(id) | 0 BadToken
"id" | 0 BadToken
add 1 5 5 | 8 BadToken
add 1 five | 6 BadToken
add 1 "5" | 6 BadToken
add 1 - 5 | 6 BadByte
add 1 5. | 7 BadByte
pipe( | 5 End
pipe(id | 7 End
pipe(id, | 8 End
pipe id) | 5 BadToken
pipe(,id) | 5 BadToken
pipe(id)) | 8 BadToken
pipe(id) id | 9 BadToken
"#;

// The version of a text, or the place and the kind of its first fault.
fn told(alloc: Global, text: &[u8]) -> Result<String, AllocError> {
    match read_net(alloc, text) {
        Ok(described) => format!(in alloc; "{:?}", described.version),
        Err(ReadFault::Text { at, kind }) => format!(in alloc; "{at} {kind:?}"),
        Err(fault) => format!(in alloc; "{fault:?}"),
    }
}

fn check(rt: &impl Abort, alloc: Global, text: &[u8], want: &str) -> Result<(), Fail> {
    let found = told(alloc, text)?;
    expect_told(rt, text, found.as_bytes(), want.as_bytes());
    Ok(())
}

#[test]
fn text_faults(rt: HostRuntime) -> Result<(), Fail> {
    let mut tried = 0u64;
    for line in FAULTS.lines() {
        if let Some((text, want)) = line.split_once(" | ") {
            check(&rt, rt.alloc(), text.as_bytes(), want)?;
            tried = tried.saturating_add(1);
        }
    }
    assert_eq!(&rt; tried, 63);
    Ok(())
}

// Reads a text between two others that stand there so many times.
fn check_between(
    rt: &impl Abort,
    alloc: Global,
    times: usize,
    parts: (&str, &str, &str),
    want: &str,
) -> Result<(), Fail> {
    let mut text = String::new(alloc);
    push_times(&mut text, times, parts.0)?;
    text.push_str(parts.1)?;
    push_times(&mut text, times, parts.2)?;
    check(rt, alloc, text.as_bytes(), want)
}

fn push_times(text: &mut String, times: usize, part: &str) -> Result<(), AllocError> {
    for _ in 0..times {
        text.push_str(part)?;
    }
    Ok(())
}

#[test]
fn texts_at_their_limits(rt: HostRuntime) -> Result<(), Fail> {
    let alloc = rt.alloc();
    let nested = ("pipe(", "id", ")");
    check_between(&rt, alloc, 15, nested, "One")?;
    check_between(&rt, alloc, 16, nested, "75 Deep")?;
    check_between(&rt, alloc, 17, nested, "75 Deep")?;
    check_between(&rt, alloc, 65_534, ("(", "", ""), "0 BadToken")?;
    let blanks = ("", "id", " ");
    check_between(&rt, alloc, 65_534, blanks, "One")?;
    check_between(&rt, alloc, 65_535, blanks, "TooLong")
}

#[test]
fn each_proper_prefix_is_refused(rt: HostRuntime) -> Result<(), Fail> {
    let text = b"pipe(add 1 5, farm 2 rr (id))";
    check(&rt, rt.alloc(), text, "One")?;
    for len in 0..text.len() {
        let fault = matches!(
            read_net(rt.alloc(), &text[..len]),
            Err(ReadFault::Text { .. })
        );
        assert!(&rt; fault, "{len} bytes are read");
    }
    Ok(())
}
