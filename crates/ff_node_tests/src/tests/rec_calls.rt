// Each call of records, fields, what nodes send and lists of records once, with ample memory. What they have to answer is
// worked out by hand.
use ff_node::{Records, Sends};
use ff_rec::{Field, FieldFault, Kept, PushFault, Record, print_number, print_record, split};
use std::alloc::Global;
use std::process::Abort;
use std::test::Fail;

fn record(alloc: Global, line: &[u8]) -> Result<Record, Fail> {
    Ok(Record::of_line(alloc, split(line, b'\n').0)?)
}

fn expect_bytes(rt: &impl Abort, found: &[u8], want: &[u8]) {
    assert_eq!(rt; found, want);
}

// A record is there, and is that of this line.
fn expect_line(rt: &impl Abort, found: Option<&Record>, line: &[u8]) {
    match found {
        Some(r) => expect_bytes(rt, r.joined(), line),
        None => panic!(rt; "no record"),
    }
}

fn expect_field(rt: &impl Abort, r: &Record, k: usize, want: Option<&[u8]>) {
    assert_eq!(rt; r.field(k), want, "field {k}");
}

fn expect_fields(rt: &impl Abort, r: &Record, fields: &[&[u8]]) {
    assert!(rt; r.len() == fields.len());
    expect_field(rt, r, 0, None);
    for k in 0..fields.len() {
        expect_field(rt, r, k + 1, Some(fields[k]));
    }
    expect_field(rt, r, r.len() + 1, None);
}

// A field of these bytes has them.
fn check_field(rt: &impl Abort, alloc: Global, bytes: &[u8]) -> Result<(), Fail> {
    let field = Field::new(alloc, bytes)?;
    expect_bytes(rt, field.bytes(), bytes);
    Ok(())
}

// There is no field with a separator, whose place is told.
fn expect_bad_byte(rt: &impl Abort, alloc: Global, bytes: &[u8], at: usize) {
    match Field::new(alloc, bytes) {
        Err(fault) => assert_eq!(rt; fault, FieldFault::BadByte(at)),
        Ok(_) => panic!(rt; "a field with a separator"),
    }
}

fn check_number(rt: &impl Abort, alloc: Global, n: i128, digits: &[u8]) -> Result<(), Fail> {
    let field = print_number(alloc, n)?;
    expect_bytes(rt, field.bytes(), digits);
    Ok(())
}

#[test]
fn fields(rt: HostRuntime) -> Result<(), Fail> {
    let alloc = rt.alloc();
    check_field(&rt, alloc, b"a b\r")?;
    check_field(&rt, alloc, b"")?;
    expect_bad_byte(&rt, alloc, b"\t", 0);
    expect_bad_byte(&rt, alloc, b"ab\ncd\t", 2);
    expect_bad_byte(&rt, alloc, b"abc\t", 3);
    check_number(&rt, alloc, 0, b"0")?;
    check_number(&rt, alloc, -7, b"-7")?;
    let large = b"85070591730234615865843651857942052864";
    check_number(&rt, alloc, 85070591730234615865843651857942052864, large)
}

fn one(alloc: Global, bytes: &[u8]) -> Result<Record, Fail> {
    let field = Field::new(alloc, bytes)?;
    Ok(Record::one(alloc, &field)?)
}

fn push(r: &mut Record, alloc: Global, bytes: &[u8]) -> Result<(), Fail> {
    let field = Field::new(alloc, bytes)?;
    Ok(r.push(&field)?)
}

fn push_first(r: &mut Record, alloc: Global, bytes: &[u8]) -> Result<(), Fail> {
    let field = Field::new(alloc, bytes)?;
    Ok(r.push_first(&field)?)
}

// Sets the second of three fields.
fn set_second(rt: &impl Abort, r: &mut Record, alloc: Global, bytes: &[u8]) -> Result<(), Fail> {
    let field = Field::new(alloc, bytes)?;
    assert!(rt; r.len() == 3);
    Ok(r.set(2, &field)?)
}

// Swaps the outer ones of three fields.
fn swap_ends(rt: &impl Abort, r: &mut Record) -> Result<(), Fail> {
    assert!(rt; r.len() == 3);
    Ok(r.swap(1, 3)?)
}

// Leaves the last of three fields.
fn leave_last(rt: &impl Abort, r: &mut Record) {
    assert!(rt; r.len() == 3);
    r.remove(1);
    expect_fields(rt, r, &[b"long one", b"a"]);
    assert!(rt; r.len() == 2);
    r.keep_only(2);
    expect_fields(rt, r, &[b"a"]);
}

// Makes changes to the record of the field `b`.
fn change(rt: &impl Abort, r: &mut Record, alloc: Global) -> Result<(), Fail> {
    expect_fields(rt, r, &[b"b"]);
    push(r, alloc, b"")?;
    push_first(r, alloc, b"a")?;
    expect_fields(rt, r, &[b"a", b"b", b""]);
    set_second(rt, r, alloc, b"long one")?;
    expect_fields(rt, r, &[b"a", b"long one", b""]);
    swap_ends(rt, r)?;
    expect_fields(rt, r, &[b"", b"long one", b"a"]);
    Ok(())
}

fn check_printed(rt: &impl Abort, r: &Record, alloc: Global) -> Result<(), Fail> {
    let mut text = Vec::from_slice(alloc, b"x\n")?;
    print_record(r, &mut text)?;
    expect_bytes(rt, &text, b"x\n\tlong one\ta\n");
    Ok(())
}

#[test]
fn records(rt: HostRuntime) -> Result<(), Fail> {
    let mut r = one(rt.alloc(), b"b")?;
    change(&rt, &mut r, rt.alloc())?;
    let copy = r.copy()?;
    leave_last(&rt, &mut r);
    expect_bytes(&rt, copy.joined(), b"\tlong one\ta");
    check_printed(&rt, &copy, rt.alloc())
}

// Pushes the other fields of 64.
fn fill(r: &mut Record, alloc: Global) -> Result<(), Fail> {
    let field = Field::new(alloc, b"f")?;
    for _ in 1..64 {
        r.push_first(&field)?;
    }
    Ok(())
}

fn expect_full(rt: &impl Abort, r: &mut Record, alloc: Global) -> Result<(), Fail> {
    let field = Field::new(alloc, b"f")?;
    assert!(rt; r.push(&field) == Err(PushFault::Full));
    assert!(rt; r.push_first(&field) == Err(PushFault::Full));
    Ok(())
}

#[test]
fn a_record_is_full_at_64_fields(rt: HostRuntime) -> Result<(), Fail> {
    let mut r = one(rt.alloc(), b"f")?;
    fill(&mut r, rt.alloc())?;
    expect_full(&rt, &mut r, rt.alloc())?;
    assert!(&rt; r.len() == 64);
    assert!(&rt; r.joined().len() == 127);
    Ok(())
}

fn send(out: &mut Sends, alloc: Global, line: &[u8]) -> Result<(), Fail> {
    Ok(out.send(record(alloc, line)?)?)
}

fn reject(out: &mut Sends, alloc: Global, line: &[u8]) -> Result<(), Fail> {
    Ok(out.reject(record(alloc, line)?)?)
}

fn expect_sent(rt: &impl Abort, out: &mut Sends, line: &[u8]) {
    let r = out.take_first();
    expect_line(rt, r.as_ref(), line);
}

fn expect_rejected(rt: &impl Abort, out: &mut Sends, line: &[u8]) {
    let r = out.take_reject();
    expect_line(rt, r.as_ref(), line);
}

// Sends two records, and rejects two.
fn send_and_reject(out: &mut Sends, alloc: Global) -> Result<(), Fail> {
    send(out, alloc, b"a\tb")?;
    send(out, alloc, b"c")?;
    reject(out, alloc, b"r\ts")?;
    reject(out, alloc, b"t")
}

// Takes these records again.
fn expect_all(rt: &impl Abort, out: &mut Sends) {
    assert!(rt; out.keeps());
    assert!(rt; out.len() == 2);
    expect_sent(rt, out, b"a\tb");
    expect_sent(rt, out, b"c");
    assert!(rt; out.take_first().is_none());
    expect_rejected(rt, out, b"r\ts");
    expect_rejected(rt, out, b"t");
    assert!(rt; out.take_reject().is_none());
    assert!(rt; out.rejects() == 2);
}

#[test]
fn sends(rt: HostRuntime) -> Result<(), Fail> {
    let mut out = Sends::new(rt.alloc(), true);
    send_and_reject(&mut out, rt.alloc())?;
    let mut copy = out.copy()?;
    expect_all(&rt, &mut out);
    expect_all(&rt, &mut copy);
    Ok(())
}

#[test]
fn rejects_that_are_counted_alone(rt: HostRuntime) -> Result<(), Fail> {
    let mut counts = Sends::new(rt.alloc(), false);
    reject(&mut counts, rt.alloc(), b"r")?;
    assert!(&rt; !counts.keeps());
    assert!(&rt; counts.rejects() == 1);
    assert!(&rt; counts.take_reject().is_none());
    Ok(())
}

fn push_line(list: &mut Records, alloc: Global, line: &[u8]) -> Result<(), Fail> {
    Ok(list.push(record(alloc, line)?)?)
}

#[test]
fn lists_of_records(rt: HostRuntime) -> Result<(), Fail> {
    let mut list = Records::new(rt.alloc());
    assert!(&rt; list.len() == 0);
    push_line(&mut list, rt.alloc(), b"a\tb")?;
    push_line(&mut list, rt.alloc(), b"")?;
    assert!(&rt; list.len() == 2);
    expect_line(&rt, list.get(0), b"a\tb");
    expect_line(&rt, list.get(1), b"");
    assert!(&rt; list.get(2).is_none());
    Ok(())
}
