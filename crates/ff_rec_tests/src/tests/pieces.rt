use ff_rec::{split, split_near};
use std::process::Abort;

// A first piece, and what follows it, if anything does.
type Pieces<'a> = (&'a [u8], Option<&'a [u8]>);

fn expect_pieces(rt: &impl Abort, text: &str, found: Pieces, want: Pieces) {
    assert_eq!(rt; found, want, "{text:?}");
}

// A text is cut so at its first tab, in both ways.
fn check(rt: &impl Abort, text: &str, piece: &[u8], rest: Option<&[u8]>) {
    let bytes = text.as_bytes();
    expect_pieces(rt, text, split(bytes, b'\t'), (piece, rest));
    expect_pieces(rt, text, split_near(bytes, b'\t'), (piece, rest));
}

#[test]
fn cuts_at_the_first_separator(rt: HostRuntime) {
    check(&rt, "ab\tc\td", b"ab", Some(b"c\td"));
    check(&rt, "\t", b"", Some(b""));
    check(&rt, "ab", b"ab", None);
    check(&rt, "", b"", None);
    // Near the last of the bytes that are looked at one by one.
    check(&rt, "abcdefghijk\tl", b"abcdefghijk", Some(b"l"));
    check(&rt, "abcdefghijkl\tm\t", b"abcdefghijkl", Some(b"m\t"));
    check(&rt, "abcdefghijklm\tn", b"abcdefghijklm", Some(b"n"));
    check(&rt, "abcdefghijklmn", b"abcdefghijklmn", None);
    // Near the last of the bytes that are looked at all at once.
    let front = "0123456789012345678901234567890";
    check(
        &rt,
        "0123456789012345678901234567890\ta\tb",
        front.as_bytes(),
        Some(b"a\tb"),
    );
    let front = "01234567890123456789012345678901";
    check(
        &rt,
        "01234567890123456789012345678901\ta\tb",
        front.as_bytes(),
        Some(b"a\tb"),
    );
    check(&rt, front, front.as_bytes(), None);
}
