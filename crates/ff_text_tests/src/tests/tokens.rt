// The expected tokens and places are counted by hand from the rules of a text.
use super::tables::{expect_told, text_of};
use ff_text::{PlacedToken, Reader, Token};
use std::alloc::{AllocError, Global};
use std::process::Abort;
use std::test::Fail;

// Texts, and behind a bar their tokens but the last, each behind its place: words and what stands between quotes as they are.
const TOKENS: &str = r#"
add 01 5 | 0 add, 4 Number(Some(1)), 7 Number(Some(5))
a1 1a | 0 a1, 3 Number(Some(1)), 4 a
-0 -007-8 | 0 Number(Some(0)), 3 Number(Some(-7)), 7 Number(Some(-8))
-9223372036854775808 -9223372036854775809 | 0 Number(Some(-9223372036854775808)), 21 Number(None)
00000000000000000000000000000000000000007 | 0 Number(Some(7))
18446744073709551617 | 0 Number(None)
p(,id) | 0 p, 1 Sign(Open), 2 Sign(Comma), 3 id, 5 Sign(Close)
< = <> <=>=!===; | 0 Sign(Less), 2 Sign(Equal), 4 Sign(Less), 5 Sign(Greater), 7 Sign(AtMost), 9 Sign(AtLeast), 11 Sign(Unequal), 13 Sign(Equal), 14 Sign(Equal), 15 Sign(Semicolon)
set "a # b\r"""x | 0 set, 4 "a # b\r", 12 "", 14 x
id# pipe "\nid# | 0 id, 11 id
- 1 | 0 Bad, 2 Number(Some(1))
1 ! | 0 Number(Some(1)), 2 Bad
  "id | 2 Bad, 3 id
"a\n" | 0 Bad, 1 a, 3 Bad
"#;

// A token as it stands in the table.
fn shown(alloc: Global, token: Token) -> Result<String, Fail> {
    Ok(match token {
        Token::Word(word) => String::from_str(alloc, str::from_utf8(word)?)?,
        Token::Quoted(text) => format!(in alloc; "\"{}\"", str::from_utf8(text)?)?,
        other => format!(in alloc; "{other:?}")?,
    })
}

// Appends a token behind its place, and a comma.
fn push_spot(told: &mut String, alloc: Global, spot: PlacedToken) -> Result<(), Fail> {
    let token = shown(alloc, spot.token)?;
    let text = format!(in alloc; "{} {token}, ", spot.at)?;
    Ok(told.push_str(text.as_str())?)
}

// The tokens up to `Stop`, of which there is at most one for each byte.
fn told(rt: &impl Abort, alloc: Global, text: &[u8], reader: &mut Reader) -> Result<String, Fail> {
    let mut told = String::new(alloc);
    for _ in text {
        let ahead = reader.peek();
        let spot = reader.next();
        assert!(rt; ahead == spot);
        if spot.token == Token::Stop {
            break;
        }
        push_spot(&mut told, alloc, spot)?;
    }
    Ok(told)
}

// `Stop` is ahead, at this place.
fn expect_stop(rt: &impl Abort, reader: &mut Reader, at: usize) {
    let token = Token::Stop;
    let stop = PlacedToken { token, at };
    assert!(rt; reader.next() == stop);
}

// A text is cut into these tokens, and then into `Stop`, which stays.
fn check(rt: &impl Abort, alloc: Global, text: &[u8], want: &[u8]) -> Result<(), Fail> {
    let mut reader = Reader::new(text);
    let found = told(rt, alloc, text, &mut reader)?;
    expect_told(rt, text, found.trim_end_matches(", ").as_bytes(), want);
    expect_stop(rt, &mut reader, text.len());
    expect_stop(rt, &mut reader, text.len());
    Ok(())
}

// These columns stand for a text and its tokens.
fn check_columns(rt: &impl Abort, alloc: Global, text: &str, want: &str) -> Result<(), Fail> {
    let text = text_of(alloc, text)?;
    let want = text_of(alloc, want)?;
    check(rt, alloc, text.as_bytes(), want.as_bytes())
}

#[test]
fn tokens_have_their_places(rt: HostRuntime) -> Result<(), Fail> {
    for line in TOKENS.lines() {
        if let Some((text, want)) = line.split_once(" | ") {
            check_columns(&rt, rt.alloc(), text, want)?;
        }
    }
    // This isn't UTF-8.
    check(
        &rt,
        rt.alloc(),
        b"A\x0b_\xff",
        b"0 Bad, 1 Bad, 2 Bad, 3 Bad",
    )
}

#[test]
fn blanks_and_comments_are_no_tokens(rt: HostRuntime) -> Result<(), Fail> {
    for text in ["", " ", "\t \r\n", "# pipe (", "#", " # a\n#b \n\t"] {
        check(&rt, rt.alloc(), text.as_bytes(), b"")?;
    }
    Ok(())
}
