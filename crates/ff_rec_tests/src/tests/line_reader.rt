use ff_rec::{FeedFault, LineFault, LineReader, Record, print_record};
use std::alloc::Global;
use std::process::Abort;
use std::test::Fail;

// The records as they are written.
fn text_of(alloc: Global, records: &Vec<Record>) -> Result<Vec<u8>, Fail> {
    let mut text = Vec::new(alloc);
    for r in records {
        print_record(r, &mut text)?;
    }
    Ok(text)
}

// The reader answers this to the piece.
fn feed(
    rt: &impl Abort,
    reader: &mut LineReader,
    piece: &[u8],
    into: &mut Vec<Record>,
    want: Result<(), FeedFault>,
) {
    assert_eq!(rt; reader.feed(piece, into), want);
}

// The reader answers this where it passes over the piece.
fn pass_over(rt: &impl Abort, reader: &mut LineReader, piece: &[u8], want: Result<(), FeedFault>) {
    assert_eq!(rt; reader.pass_over(piece), want);
}

fn expect_fault(rt: &impl Abort, reader: &LineReader, want: Option<FeedFault>) {
    assert_eq!(rt; reader.fault(), want);
}

fn expect_len(rt: &impl Abort, records: &Vec<Record>, want: usize) {
    assert_eq!(rt; records.len(), want);
}

// The records are written so.
fn expect_text(
    rt: &impl Abort,
    alloc: Global,
    records: &Vec<Record>,
    want: &[u8],
) -> Result<(), Fail> {
    assert_eq!(rt; text_of(alloc, records)?.as_slice(), want);
    Ok(())
}

// The reader has no fault, and gives what it still holds of a line.
fn finish(rt: &impl Abort, reader: LineReader, into: &mut Vec<Record>) -> Result<(), Fail> {
    assert_eq!(rt; reader.fault(), None);
    reader.finish(into)?;
    Ok(())
}

#[test]
fn line_reader_keeps_its_refusal(rt: HostRuntime) -> Result<(), Fail> {
    let mut reader = LineReader::new(rt.alloc(), 10, 4)?;
    let mut into = Vec::new(rt.alloc());
    feed(&rt, &mut reader, b"ab\n", &mut into, Ok(()));
    expect_fault(&rt, &reader, None);
    let fault = FeedFault::Line(LineFault::InputTooLong);
    feed(&rt, &mut reader, b"cd", &mut into, Err(fault));
    feed(&rt, &mut reader, b"", &mut into, Err(fault));
    feed(&rt, &mut reader, b"\n", &mut into, Err(fault));
    feed(&rt, &mut reader, b"e\nf\n", &mut into, Err(fault));
    expect_fault(&rt, &reader, Some(fault));
    expect_text(&rt, rt.alloc(), &into, b"ab\n")
}

// Two records, of which the first has 64 fields.
fn expect_wide(rt: &impl Abort, records: &Vec<Record>) {
    assert_eq!(rt; records.len(), 2);
    assert_eq!(rt; records[0].len(), 64);
}

#[test]
fn many_fields(rt: HostRuntime) -> Result<(), Fail> {
    let mut reader = LineReader::new(rt.alloc(), 65_536, 1 << 40)?;
    let mut into = Vec::new(rt.alloc());
    let wide = text_from(rt.alloc(), b"", 63, b'\t')?;
    feed(&rt, &mut reader, wide.as_slice(), &mut into, Ok(()));
    feed(&rt, &mut reader, b"\na\nb", &mut into, Ok(()));
    expect_wide(&rt, &into);
    feed(&rt, &mut reader, wide.as_slice(), &mut into, Ok(()));
    let too_many = Err(FeedFault::Line(LineFault::TooManyFields(3)));
    feed(&rt, &mut reader, b"\t", &mut into, too_many);
    expect_len(&rt, &into, 2);
    Ok(())
}

// A text of so many bytes, of which the others behind the front are the same.
fn text_from(alloc: Global, front: &[u8], len: usize, byte: u8) -> Result<Vec<u8>, Fail> {
    let mut text = Vec::from_slice(alloc, front)?;
    text.resize(len, byte)?;
    Ok(text)
}

// How many bytes a line and an input may have.
type Limits = (usize, u64);

fn reader_of(rt: &impl Abort, alloc: Global, limits: Limits) -> Result<LineReader, Fail> {
    assert!(rt; 1 <= limits.0 && 1 <= limits.1);
    Ok(LineReader::new(alloc, limits.0, limits.1)?)
}

// A reader with these limits answers this to the text.
fn check_fed(
    rt: &impl Abort,
    alloc: Global,
    limits: Limits,
    text: &[u8],
    want: Result<(), FeedFault>,
) -> Result<(), Fail> {
    let mut into = Vec::new(alloc);
    let found = reader_of(rt, alloc, limits)?.feed(text, &mut into);
    assert_eq!(rt; found, want, "{limits:?}");
    Ok(())
}

// A reader with these limits answers this where it passes over the text.
fn check_passed_over(
    rt: &impl Abort,
    alloc: Global,
    limits: Limits,
    text: &[u8],
    want: Result<(), FeedFault>,
) -> Result<(), Fail> {
    let found = reader_of(rt, alloc, limits)?.pass_over(text);
    assert_eq!(rt; found, want, "{limits:?}");
    Ok(())
}

#[test]
fn the_first_limit_that_is_passed_decides(rt: HostRuntime) -> Result<(), Fail> {
    // 64 tabs behind a line: the last of them is byte 66 of the text and byte 64 of its line.
    let tabs = text_from(rt.alloc(), b"a\n", 66, b'\t')?;
    let tabs = tabs.as_slice();
    let long = text_from(rt.alloc(), b"\n", 65_538, b'x')?;
    let long = long.as_slice();
    let input = Err(FeedFault::Line(LineFault::InputTooLong));
    let too_long = Err(FeedFault::Line(LineFault::TooLong(2)));
    let many = Err(FeedFault::Line(LineFault::TooManyFields(2)));
    for (limits, text, want) in [
        ((63, 65), tabs, input),
        ((64, 65), tabs, input),
        ((63, 66), tabs, too_long),
        ((62, 65), tabs, too_long),
        ((64, 66), tabs, many),
        ((65_536, 1 << 40), long, too_long),
        ((65_537, 1 << 40), long, Ok(())),
        // A newline is a byte of the input, and none of its line.
        ((1, 3), b"a\nb\n", input),
        ((1, 4), b"a\nb\n", Ok(())),
    ] {
        check_fed(&rt, rt.alloc(), limits, text, want)?;
        check_passed_over(&rt, rt.alloc(), limits, text, want)?;
    }
    Ok(())
}

#[test]
fn what_was_passed_over_counts(rt: HostRuntime) -> Result<(), Fail> {
    let mut reader = LineReader::new(rt.alloc(), 3, 14)?;
    let mut into = Vec::new(rt.alloc());
    pass_over(&rt, &mut reader, b"a\tb", Ok(()));
    pass_over(&rt, &mut reader, b"\n\n", Ok(()));
    pass_over(&rt, &mut reader, b"cc", Ok(()));
    feed(&rt, &mut reader, b"d\ne", &mut into, Ok(()));
    expect_text(&rt, rt.alloc(), &into, b"ccd\n")?;
    let too_long = Err(FeedFault::Line(LineFault::TooLong(4)));
    pass_over(&rt, &mut reader, b"fgh", too_long);
    pass_over(&rt, &mut reader, b"\n", too_long);
    feed(&rt, &mut reader, b"i\n", &mut into, too_long);
    expect_len(&rt, &into, 1);
    Ok(())
}

const CUT: &[u8] = b"a\n\nb\tc\n\t\td\ne";

// Feeds the text in pieces, which end behind the bytes at which the cutting has a 1, the lowest bit first.
fn feed_pieces(
    rt: &impl Abort,
    alloc: Global,
    cutting: u16,
    reader: &mut LineReader,
    into: &mut Vec<Record>,
) -> Result<(), Fail> {
    let mut piece = Vec::new(alloc);
    let mut cuts = cutting;
    for byte in CUT {
        piece.push(*byte)?;
        if cuts % 2 == 1 {
            feed(rt, reader, piece.as_slice(), into, Ok(()));
            piece.clear();
        }
        cuts /= 2;
    }
    feed(rt, reader, piece.as_slice(), into, Ok(()));
    Ok(())
}

fn check_cutting(rt: &impl Abort, alloc: Global, cutting: u16) -> Result<(), Fail> {
    let mut reader = LineReader::new(alloc, 3, 12)?;
    let mut into = Vec::new(alloc);
    feed_pieces(rt, alloc, cutting, &mut reader, &mut into)?;
    assert_eq!(rt; into.len(), 4, "{cutting}");
    finish(rt, reader, &mut into)?;
    assert_eq!(rt; into.len(), 5, "{cutting}");
    expect_text(rt, alloc, &into, b"a\n\nb\tc\n\t\td\ne\n")
}

#[test]
fn every_cutting_into_pieces_gives_the_same_records(rt: HostRuntime) -> Result<(), Fail> {
    for cutting in 0..2048u16 {
        check_cutting(&rt, rt.alloc(), cutting)?;
    }
    Ok(())
}

// The records of a whole text are written so.
fn check_whole(rt: &impl Abort, alloc: Global, text: &[u8], want: &[u8]) -> Result<(), Fail> {
    let mut reader = LineReader::new(alloc, 10, 100)?;
    let mut into = Vec::new(alloc);
    feed(rt, &mut reader, text, &mut into, Ok(()));
    finish(rt, reader, &mut into)?;
    expect_text(rt, alloc, &into, want)
}

#[test]
fn finish_gives_a_last_line_without_a_newline(rt: HostRuntime) -> Result<(), Fail> {
    let alloc = rt.alloc();
    check_whole(&rt, alloc, b"", b"")?;
    check_whole(&rt, alloc, b"\n", b"\n")?;
    check_whole(&rt, alloc, b"a\tb", b"a\tb\n")?;
    check_whole(&rt, alloc, b"a\tb\n", b"a\tb\n")?;
    check_whole(&rt, alloc, b"a\n\n", b"a\n\n")?;
    check_whole(&rt, alloc, b"a\n\nb", b"a\n\nb\n")
}

// So many equal bytes.
fn run_of(alloc: Global, byte: u8, len: usize) -> Result<Vec<u8>, Fail> {
    let mut run = Vec::new(alloc);
    run.resize(len, byte)?;
    Ok(run)
}

// There is one record, of these two fields.
fn expect_two_fields(rt: &impl Abort, records: &Vec<Record>, first: &[u8], second: &[u8]) {
    assert_eq!(rt; records.len(), 1, "{first:?}, {second:?}");
    let r = &records[0];
    assert_eq!(rt; r.len(), 2, "{first:?}, {second:?}");
    assert_eq!(rt; r.field(1), Some(first), "{first:?}, {second:?}");
    assert_eq!(rt; r.field(2), Some(second), "{first:?}, {second:?}");
}

// A line of two fields of so many bytes is read alike, whatever stands behind it.
fn check_two_fields(
    rt: &impl Abort,
    alloc: Global,
    first: usize,
    second: usize,
    behind: &[u8],
) -> Result<(), Fail> {
    let first = run_of(alloc, b'a', first)?;
    let second = run_of(alloc, b'b', second)?;
    let mut text = first.clone()?;
    text.push(b'\t')?;
    text.extend_from_slice(second.as_slice())?;
    text.push(b'\n')?;
    text.extend_from_slice(behind)?;
    let mut reader = LineReader::new(alloc, 65_536, 1 << 40)?;
    let mut into = Vec::new(alloc);
    feed(rt, &mut reader, text.as_slice(), &mut into, Ok(()));
    expect_two_fields(rt, &into, first.as_slice(), second.as_slice());
    Ok(())
}

#[test]
fn a_line_is_the_same_whatever_stands_behind_it(rt: HostRuntime) -> Result<(), Fail> {
    let alloc = rt.alloc();
    let behind = b"0\t1\t2\t3\t4\t5\t6\t7\t8\t9\t0\t1\t2\t3\t4\t5\t6\t7\t8\t9\t";
    for first in 0..45 {
        check_two_fields(&rt, alloc, first, 0, behind)?;
        check_two_fields(&rt, alloc, first, 44 - first, behind)?;
        check_two_fields(&rt, alloc, first, 0, b"")?;
        check_two_fields(&rt, alloc, 0, first, behind)?;
    }
    // 31 bytes, as many as a record holds in place.
    for first in 0..31 {
        check_two_fields(&rt, alloc, first, 30 - first, behind)?;
    }
    Ok(())
}
