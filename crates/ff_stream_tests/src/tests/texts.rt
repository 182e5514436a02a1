// Text that is held, and records that are written at once.
use ff_io::{Failed, MemSink};
use ff_node::Sends;
use ff_rec::{Field, Record, Records};
use ff_stream::{Halt, Text, write_records};
use std::alloc::Global;
use std::process::Abort;
use std::test::Fail;

// A record of one field.
fn record(alloc: Global, bytes: &[u8]) -> Result<Record, Fail> {
    Ok(Record::one(alloc, &Field::new(alloc, bytes)?)?)
}

fn add(alloc: Global, list: &mut Records, bytes: &[u8]) -> Result<(), Fail> {
    list.push(record(alloc, bytes)?)?;
    Ok(())
}

fn send(alloc: Global, out: &mut Sends, bytes: &[u8]) -> Result<(), Fail> {
    out.send(record(alloc, bytes)?)?;
    Ok(())
}

fn print(alloc: Global, text: &mut Text, bytes: &[u8]) -> Result<(), Fail> {
    text.print(&record(alloc, bytes)?)?;
    Ok(())
}

// Prints the records `c` and ``, which are taken out of what is sent.
fn print_two(rt: &impl Abort, alloc: Global, text: &mut Text) -> Result<(), Fail> {
    let mut out = Sends::new(alloc, false);
    send(alloc, &mut out, b"c")?;
    send(alloc, &mut out, b"")?;
    text.print_sends(&mut out)?;
    assert_eq!(rt; out.len(), 0);
    Ok(())
}

fn check_taken(rt: &impl Abort, sink: &MemSink, want: &[u8]) {
    assert_eq!(rt; sink.taken(), want);
}

#[test]
fn text_is_held_until_it_is_written(rt: HostRuntime) -> Result<(), Fail> {
    let alloc = rt.alloc();
    let mut sink = MemSink::new(alloc, 9, Vec::new(alloc))?;
    let mut text = Text::new(alloc);
    print(alloc, &mut text, b"ab")?;
    print_two(&rt, alloc, &mut text)?;
    assert!(rt; text.write_full(&mut sink) == Ok(()));
    check_taken(&rt, &sink, b"");
    assert!(rt; text.write(&mut sink) == Ok(()));
    check_taken(&rt, &sink, b"ab\nc\n\n");
    print(alloc, &mut text, b"def")?;
    assert!(rt; text.write(&mut sink) == Err(Failed));
    check_taken(&rt, &sink, b"ab\nc\n\ndef");
    Ok(())
}

// Writing the records `1` and `2` to a sink of this budget.
fn check_budget(
    rt: &impl Abort,
    alloc: Global,
    budget: usize,
    want: Result<(), Halt>,
    out: &[u8],
) -> Result<(), Fail> {
    let mut sink = MemSink::new(alloc, budget, Vec::new(alloc))?;
    let mut list = Records::new(alloc);
    add(alloc, &mut list, b"1")?;
    add(alloc, &mut list, b"2")?;
    assert_eq!(rt; write_records(alloc, list, &mut sink), want);
    check_taken(rt, &sink, out);
    Ok(())
}

#[test]
fn records_are_written(rt: HostRuntime) -> Result<(), Fail> {
    check_budget(&rt, rt.alloc(), 4, Ok(()), b"1\n2\n")?;
    check_budget(&rt, rt.alloc(), 3, Err(Halt::Write), b"1\n2")?;
    check_budget(&rt, rt.alloc(), 0, Err(Halt::Write), b"")
}
