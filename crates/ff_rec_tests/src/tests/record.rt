use ff_rec::{Case, CutFault, Field, Kept, MOST_FIELDS, PushFault, Record, print_record, split};
use std::alloc::Global;
use std::process::Abort;
use std::test::Fail;

// The record of a line.
fn record_of(alloc: Global, line: &[u8]) -> Result<Record, Fail> {
    Ok(Record::of_line(alloc, split(line, b'\n').0)?)
}

fn expect_joined(rt: &impl Abort, r: &Record, want: &str) {
    assert_eq!(rt; r.joined(), want.as_bytes(), "{want:?}");
}

fn expect_len(rt: &impl Abort, r: &Record, want: usize) {
    assert_eq!(rt; r.len(), want);
}

fn expect_field(rt: &impl Abort, r: &Record, k: usize, want: Option<&[u8]>) {
    assert_eq!(rt; r.field(k), want, "field {k}");
}

// A record has so many fields, of which these are the first and the third.
fn expect_fields(rt: &impl Abort, r: &Record, len: usize, first: &[u8], third: Option<&[u8]>) {
    expect_len(rt, r, len);
    expect_field(rt, r, 0, None);
    expect_field(rt, r, 1, Some(first));
    expect_field(rt, r, 3, third);
    expect_field(rt, r, r.len() + 1, None);
}

// A line is cut into such fields, which are the line again where they are joined.
fn check_cut(
    rt: &impl Abort,
    alloc: Global,
    line: &str,
    len: usize,
    first: &[u8],
    third: Option<&[u8]>,
) -> Result<(), Fail> {
    let r = record_of(alloc, line.as_bytes())?;
    expect_fields(rt, &r, len, first, third);
    expect_joined(rt, &r, line);
    expect_joined(rt, &r.copy()?, line);
    Ok(())
}

#[test]
fn cuts_a_line_at_its_tabs(rt: HostRuntime) -> Result<(), Fail> {
    let alloc = rt.alloc();
    check_cut(&rt, alloc, "a\tbc\t\td", 4, b"a", Some(b""))?;
    check_cut(&rt, alloc, "one", 1, b"one", None)?;
    check_cut(&rt, alloc, "", 1, b"", None)?;
    check_cut(&rt, alloc, "\t\t", 3, b"", Some(b""))
}

fn set(rt: &impl Abort, r: &mut Record, k: usize, by: &Field) -> Result<(), Fail> {
    assert!(rt; 1 <= k && k <= r.len());
    r.set(k, by)?;
    Ok(())
}

// The record has this text in the place of its field `k`, and as many fields as before.
fn check_set(
    rt: &impl Abort,
    r: &mut Record,
    k: usize,
    by: &Field,
    want: &str,
) -> Result<(), Fail> {
    let len = r.len();
    set(rt, r, k, by)?;
    expect_joined(rt, r, want);
    expect_len(rt, r, len);
    Ok(())
}

// The record of a line with one of its fields changed is that of the other line.
fn check_line_set(
    rt: &impl Abort,
    alloc: Global,
    line: &str,
    k: usize,
    by: &str,
    want: &str,
) -> Result<(), Fail> {
    let field = Field::new(alloc, by.as_bytes())?;
    check_set(rt, &mut record_of(alloc, line.as_bytes())?, k, &field, want)
}

#[test]
fn sets_one_field(rt: HostRuntime) -> Result<(), Fail> {
    for (line, k, by, want) in [
        ("a\tbcd\te", 2, "xyz", "a\txyz\te"),
        ("a\tbcd\te", 2, "longer", "a\tlonger\te"),
        ("a\tbcd\te", 2, "s", "a\ts\te"),
        ("a\tbcd\te", 2, "", "a\t\te"),
        ("a\tbcd\te", 1, "front", "front\tbcd\te"),
        ("a\tbcd\te", 3, "back", "a\tbcd\tback"),
        ("\t\t", 2, "m", "\tm\t"),
        ("", 1, "only", "only"),
    ] {
        check_line_set(&rt, rt.alloc(), line, k, by, want)?;
    }
    Ok(())
}

// Puts a number into the second field.
fn check_number_set(rt: &impl Abort, r: &mut Record, n: i64, want: &str) -> Result<(), Fail> {
    assert!(rt; 2 <= r.len());
    r.set_number(2, n)?;
    expect_joined(rt, r, want);
    Ok(())
}

#[test]
fn sets_numbers_that_grow_and_shrink(rt: HostRuntime) -> Result<(), Fail> {
    let mut r = record_of(rt.alloc(), b"k\t7\tz")?;
    for (n, want) in [
        (9, "k\t9\tz"),
        (i64::MIN, "k\t-9223372036854775808\tz"),
        (-1, "k\t-1\tz"),
        (0, "k\t0\tz"),
        (i64::MAX, "k\t9223372036854775807\tz"),
    ] {
        check_number_set(&rt, &mut r, n, want)?;
    }
    Ok(())
}

// A record of as many fields as there can be.
fn widest(alloc: Global, field: &Field) -> Result<Record, Fail> {
    let mut r = Record::one(alloc, field)?;
    for _ in 1..MOST_FIELDS {
        r.push(field)?;
    }
    Ok(r)
}

fn expect_full(rt: &impl Abort, r: &mut Record, field: &Field) {
    expect_len(rt, r, MOST_FIELDS);
    assert_eq!(rt; r.push(field), Err(PushFault::Full));
    assert_eq!(rt; r.push_first(field), Err(PushFault::Full));
    expect_len(rt, r, MOST_FIELDS);
    expect_field(rt, r, MOST_FIELDS, Some(b"f"));
}

fn expect_bytes(rt: &impl Abort, found: &[u8], want: &[u8]) {
    assert_eq!(rt; found, want);
}

// What is printed of 64 fields `f`, behind a text that was there.
fn expect_print(rt: &impl Abort, text: &[u8]) {
    assert_eq!(rt; text.len(), 7 + 2 * MOST_FIELDS);
    expect_bytes(rt, &text[..11], b"count: f\tf\t");
    expect_bytes(rt, &text[text.len() - 4..], b"f\tf\n");
}

fn check_print(rt: &impl Abort, alloc: Global, r: &Record) -> Result<(), Fail> {
    let mut text = Vec::from_slice(alloc, b"count: ")?;
    print_record(r, &mut text)?;
    expect_print(rt, &text);
    Ok(())
}

fn expect_too_wide(rt: &impl Abort, alloc: Global, line: &[u8]) {
    match Record::of_line(alloc, split(line, b'\n').0) {
        Err(fault) => assert_eq!(rt; fault, CutFault::TooManyFields),
        Ok(_) => assert!(rt; false, "a line of 65 fields was cut"),
    }
}

// The line of 64 fields is cut, and one of 65 isn't.
fn check_widest_line(rt: &impl Abort, alloc: Global, line: &[u8]) -> Result<(), Fail> {
    expect_len(rt, &record_of(alloc, line)?, MOST_FIELDS);
    let mut wide = Vec::from_slice(alloc, line)?;
    wide.push(b'\t')?;
    expect_too_wide(rt, alloc, &wide);
    Ok(())
}

#[test]
fn a_record_has_at_most_64_fields(rt: HostRuntime) -> Result<(), Fail> {
    let field = Field::new(rt.alloc(), b"f")?;
    let mut r = widest(rt.alloc(), &field)?;
    expect_full(&rt, &mut r, &field);
    check_print(&rt, rt.alloc(), &r)?;
    check_widest_line(&rt, rt.alloc(), r.joined())
}

fn swap(rt: &impl Abort, r: &mut Record, k: usize, l: usize) -> Result<(), Fail> {
    assert!(rt; 1 <= k && k <= r.len() && 1 <= l && l <= r.len());
    r.swap(k, l)?;
    Ok(())
}

fn remove(rt: &impl Abort, r: &mut Record, k: usize) {
    assert!(rt; 1 <= k && k <= r.len() && 2 <= r.len());
    r.remove(k);
}

fn keep_only(rt: &impl Abort, r: &mut Record, k: usize) {
    assert!(rt; 1 <= k && k <= r.len());
    r.keep_only(k);
}

fn set_case(rt: &impl Abort, r: &mut Record, k: usize, case: Case) {
    assert!(rt; 1 <= k && k <= r.len());
    r.set_case(k, case);
}

#[test]
fn one_field_changes_its_case(rt: HostRuntime) -> Result<(), Fail> {
    for (line, want) in [
        ("aZ\t@azAZ`[{é\tzA[@", "aZ\t@AZAZ`[{é\tza[@"),
        (
            "a field that fills a block\t@azAZ`[{é\tzA[@",
            "a field that fills a block\t@AZAZ`[{é\tza[@",
        ),
    ] {
        let mut r = record_of(rt.alloc(), line.as_bytes())?;
        set_case(&rt, &mut r, 2, Case::Upper);
        set_case(&rt, &mut r, 3, Case::Lower);
        expect_joined(&rt, &r, want);
    }
    Ok(())
}

// A field is kept alone, and is this.
fn check_keep_only(rt: &impl Abort, r: &mut Record, k: usize, want: &str) {
    keep_only(rt, r, k);
    expect_joined(rt, r, want);
    expect_len(rt, r, 1);
}

// Fields change places.
fn check_swaps(rt: &impl Abort, r: &mut Record) -> Result<(), Fail> {
    for (k, l, want) in [
        (1, 4, "d\tbb\t\ta"),
        (3, 2, "d\t\tbb\ta"),
        (2, 2, "d\t\tbb\ta"),
        (3, 4, "d\t\ta\tbb"),
    ] {
        swap(rt, r, k, l)?;
        expect_joined(rt, r, want);
    }
    Ok(())
}

// Fields go.
fn check_removes(rt: &impl Abort, r: &mut Record) {
    for (k, want) in [(4, "d\t\ta"), (1, "\ta"), (1, "a")] {
        remove(rt, r, k);
        expect_joined(rt, r, want);
    }
}

#[test]
fn fields_come_go_and_change_places(rt: HostRuntime) -> Result<(), Fail> {
    let mut r = record_of(rt.alloc(), b"bb\t\td")?;
    r.push_first(&Field::new(rt.alloc(), b"a")?)?;
    expect_joined(&rt, &r, "a\tbb\t\td");
    check_swaps(&rt, &mut r)?;
    check_removes(&rt, &mut r);
    r.push(&Field::new(rt.alloc(), b"kept")?)?;
    check_keep_only(&rt, &mut r, 2, "kept");
    Ok(())
}

#[test]
fn an_empty_field_is_kept_alone(rt: HostRuntime) -> Result<(), Fail> {
    let mut r = record_of(rt.alloc(), b"a\t\tb")?;
    check_keep_only(&rt, &mut r, 2, "");
    Ok(())
}

fn expect_number(rt: &impl Abort, r: &Record, k: usize, want: Option<i64>) {
    assert_eq!(rt; r.number(k), want, "the number in field {k}");
}

// The record of the first field of another.
fn first_of(r: &Record) -> Result<Record, Fail> {
    match r.field(1) {
        Some(bytes) => Ok(Record::of_plain(r.allocator(), bytes)?),
        None => Err("no first field".into()),
    }
}

#[test]
fn a_record_of_a_part_of_another(rt: HostRuntime) -> Result<(), Fail> {
    let r = record_of(rt.alloc(), b"ab\t-7\t7x")?;
    for (k, want) in [(0, None), (1, None), (2, Some(-7)), (3, None), (4, None)] {
        expect_number(&rt, &r, k, want);
    }
    expect_joined(&rt, &first_of(&r)?, "ab");
    Ok(())
}

// So many bytes lie in a record itself; more lie in a heap block.
const IN_PLACE: usize = 31;

// So many bytes `x`.
fn run_of(alloc: Global, len: usize) -> Result<Field, Fail> {
    let mut bytes = Vec::new(alloc);
    bytes.resize(len, b'x')?;
    Ok(Field::new(alloc, bytes.as_slice())?)
}

// The first of the two fields is set to this one.
fn check_first_set(rt: &impl Abort, r: &mut Record, wide: &Field) -> Result<(), Fail> {
    set(rt, r, 1, wide)?;
    expect_field(rt, &r.copy()?, 1, Some(wide.bytes()));
    expect_field(rt, r, 2, Some(b"v"));
    Ok(())
}

// Such fields are added at both ends, and the last two change places.
fn check_added(rt: &impl Abort, r: &mut Record, wide: &Field, whole: usize) -> Result<(), Fail> {
    r.push_first(wide)?;
    r.push(wide)?;
    swap(rt, r, 3, 4)?;
    expect_field(rt, r, 4, Some(b"v"));
    assert_eq!(rt; r.joined().len(), whole);
    Ok(())
}

// The record `k v` with `k` set to so many bytes and then with two more such fields, of so many bytes in all.
fn check_wide(rt: &impl Abort, alloc: Global, len: usize, whole: usize) -> Result<(), Fail> {
    let wide = run_of(alloc, len)?;
    let mut r = record_of(alloc, b"k\tv")?;
    check_first_set(rt, &mut r, &wide)?;
    check_added(rt, &mut r, &wide, whole)?;
    remove(rt, &mut r, 1);
    keep_only(rt, &mut r, 3);
    expect_joined(rt, &r, "v");
    Ok(())
}

#[test]
fn a_record_is_the_same_in_place_and_in_a_heap_block(rt: HostRuntime) -> Result<(), Fail> {
    let room = IN_PLACE - 2;
    for len in [0, room, room + 1, 100] {
        check_wide(&rt, rt.alloc(), len, 3 * len + 4)?;
    }
    assert_eq!(rt; size_of::<Record>(), 40);
    Ok(())
}

#[test]
fn a_field_in_place_ends_at_its_tab_or_with_the_record(rt: HostRuntime) -> Result<(), Fail> {
    for (line, k, want) in [
        // 30 bytes, with tabs at 3, and behind the first 16 at 17 and 20.
        ("abc\tefghijklmnopq\tst\tvwxyz1234", 1, "abc"),
        ("abc\tefghijklmnopq\tst\tvwxyz1234", 2, "efghijklmnopq"),
        ("abc\tefghijklmnopq\tst\tvwxyz1234", 3, "st"),
        ("abc\tefghijklmnopq\tst\tvwxyz1234", 4, "vwxyz1234"),
        // The second field ends near the last of the 16 bytes that are looked at all at once.
        ("abc\tefghijklmnopqrs\t", 2, "efghijklmnopqrs"),
        ("abc\tefghijklmnopqrs\t", 3, ""),
        ("abc\tefghijklmnopqrst", 2, "efghijklmnopqrst"),
        ("abc\tefghijklmnopqrst\t", 2, "efghijklmnopqrst"),
        // Near the last byte that has room.
        ("0123456789abcd\tfghijklmnopqrst\t", 2, "fghijklmnopqrst"),
        ("0123456789abcd\tfghijklmnopqrst\t", 3, ""),
        ("0123456789abcd\tfghijklmnopqrstu", 2, "fghijklmnopqrstu"),
        ("0123456789abcde\tghijklmnopqrstu", 2, "ghijklmnopqrstu"),
    ] {
        expect_field(
            &rt,
            &record_of(rt.alloc(), line.as_bytes())?,
            k,
            Some(want.as_bytes()),
        );
    }
    Ok(())
}

#[test]
fn a_tab_behind_a_shortened_record_is_no_end_of_a_field(rt: HostRuntime) -> Result<(), Fail> {
    let mut r = record_of(rt.alloc(), b"abcdef\tg\th\ti")?;
    remove(&rt, &mut r, 1);
    expect_fields(&rt, &r, 3, b"g", Some(b"i"));
    remove(&rt, &mut r, 1);
    remove(&rt, &mut r, 1);
    expect_fields(&rt, &r, 1, b"i", None);
    let mut r = record_of(rt.alloc(), b"abcdef\tg\th")?;
    keep_only(&rt, &mut r, 2);
    expect_fields(&rt, &r, 1, b"g", None);
    let longer = Field::new(rt.alloc(), b"gg")?;
    set(&rt, &mut r, 1, &longer)?;
    expect_fields(&rt, &r, 1, b"gg", None);
    Ok(())
}
