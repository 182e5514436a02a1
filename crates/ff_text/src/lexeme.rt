// What stands at the front of a text.
ghost use Rattle.std.specs.Prelude.{◌≡◌, ◌<◌, ◌≤◌, length, slice_index, drop, IsTrue};
ghost use Rattle.ff_text.specs.Cutting.{gap, piece, lexeme, digits, minus, quoted, sign, with_equal, is_next};
ghost use Rattle.ff_text.specs.Seen.{seen, token_of};

use crate::byte_class::{ByteClass, run_len};
use crate::{TextMark, Token};
use ff_rec::read_number;

/// A token, or none for a gap; and how many bytes behind the first belong to it.
#[derive(Drop)]
pub struct Lexeme<'a> {
    pub token: Option<Token<'a>>,
    pub more: usize,
}

// A blank or a comment.
fn gap<'a>(more: usize) -> Lexeme<'a>
    ensures { seen result ≡ gap more }
{
    Lexeme { token: None, more }
}

// A token.
fn piece(token: Token<'_>, more: usize) -> Lexeme<'_>
    ensures { seen result ≡ piece (token_of token.entry) more }
{
    Lexeme {
        token: Some(token),
        more,
    }
}

/// What stands at the front.
pub fn first_lexeme(text: &[u8]) -> Lexeme<'_>
    requires { 0 < length text.now }
    ensures value { seen result ≡ lexeme (slice_index text.now 0) (drop 1 text.now) }
    ensures within { result.more < length text.now }
{
    let rest = &text[1..];
    match text[0] {
        b' ' | b'\t' | b'\n' | b'\r' => gap(0),
        b'#' => gap(run_len(ByteClass::InLine, rest)),
        b'a'..=b'z' => {
            let more = run_len(ByteClass::InWord, rest);
            piece(Token::Word(&text[..1 + more]), more)
        }
        b'0'..=b'9' => digits(text),
        b'-' => minus(text),
        b'"' => quoted(rest),
        _ => sign(text[0], rest),
    }
}

// A number from its first digit or its `-` on.
fn digits(text: &[u8]) -> Lexeme<'_>
    requires { 0 < length text.now }
    ensures value { seen result ≡ digits (slice_index text.now 0) (drop 1 text.now) }
    ensures within { result.more < length text.now }
{
    let more = run_len(ByteClass::Digit, &text[1..]);
    piece(Token::Number(read_number(&text[..1 + more])), more)
}

// From a `-` on.
fn minus(text: &[u8]) -> Lexeme<'_>
    requires some { 0 < length text.now }
    requires minus { slice_index text.now 0 ≡ 45 }
    ensures value { seen result ≡ minus (drop 1 text.now) }
    ensures within { result.more < length text.now }
{
    match text.get(1) {
        Some(b'0'..=b'9') => digits(text),
        _ => piece(Token::Bad, 0),
    }
}

// From behind a quote on.
fn quoted(rest: &[u8]) -> Lexeme<'_>
    ensures value { seen result ≡ quoted rest.now }
    ensures within { result.more ≤ length rest.now }
{
    let len = run_len(ByteClass::InQuotes, rest);
    if is_next(b'"', &rest[len..]) {
        piece(Token::Quoted(&rest[..len]), 1 + len)
    } else {
        piece(Token::Bad, 0)
    }
}

// A mark from its first byte on.
fn sign(first: u8, rest: &[u8]) -> Lexeme<'_>
    ensures value { seen result ≡ sign first rest.now }
    ensures within { result.more ≤ length rest.now }
{
    match first {
        b'(' => piece(Token::Sign(TextMark::Open), 0),
        b')' => piece(Token::Sign(TextMark::Close), 0),
        b',' => piece(Token::Sign(TextMark::Comma), 0),
        b';' => piece(Token::Sign(TextMark::Semicolon), 0),
        b'=' => piece(Token::Sign(TextMark::Equal), 0),
        b'<' => with_equal(
            Token::Sign(TextMark::Less),
            Token::Sign(TextMark::AtMost),
            rest,
        ),
        b'>' => with_equal(
            Token::Sign(TextMark::Greater),
            Token::Sign(TextMark::AtLeast),
            rest,
        ),
        b'!' => with_equal(Token::Bad, Token::Sign(TextMark::Unequal), rest),
        _ => piece(Token::Bad, 0),
    }
}

// One token, or the other where `=` comes next.
fn with_equal<'a>(alone: Token<'a>, both: Token<'a>, rest: &[u8]) -> Lexeme<'a>
    ensures value { seen result ≡ with_equal (token_of alone.entry) (token_of both.entry) rest.now }
    ensures within { result.more ≤ length rest.now }
{
    if is_next(b'=', rest) {
        piece(both, 1)
    } else {
        piece(alone, 0)
    }
}

// Whether the next byte is that one.
fn is_next(byte: u8, bytes: &[u8]) -> bool
    ensures value { result ≡ is_next byte bytes.now }
    ensures some { IsTrue result → 0 < length bytes.now }
{
    match bytes {
        [first, ..] => *first == byte,
        [] => false,
    }
}
