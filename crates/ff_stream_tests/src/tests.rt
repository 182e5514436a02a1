// What no clause says: that the calls succeed while memory is there, and that the clauses mean these bytes.
mod endings;
mod nodes;
mod takings;
mod texts;

use ff_io::{MemSink, MemSource, SlowSource};
use ff_net::Version;
use ff_node::Node;
use ff_rec::Record;
use ff_stream::{Ending, Report, RunFault, Stop, run_stream};
use nodes::{Gate, Last};
use std::alloc::Global;
use std::process::Abort;
use std::test::Fail;

// The devices of a run: the most that a read gives, the read that fails, counted from 1, and what the sink takes in all.
#[derive(Clone, Copy)]
struct Devices {
    most: usize,
    fails: u64,
    budget: usize,
}

// Devices that do all that is asked of them.
const SOUND: Devices = Devices {
    most: 65_536,
    fails: 0,
    budget: 200_000,
};

// How a run ends.
#[derive(Clone, Copy, Debug, PartialEq, Eq)]
enum Kind {
    Ended(Stop),
    Broken(RunFault),
}

const DONE: Kind = Kind::Ended(Stop::End);

const WRITE: Kind = Kind::Broken(RunFault::Write);

// How a run ends, and how many records it tells.
fn summary(answer: &Result<Ending, RunFault>) -> (Kind, u64) {
    match answer {
        Ok(ending) => (Kind::Ended(ending.stop), ending.report.rejected),
        Err(fault) => (Kind::Broken(*fault), 0),
    }
}

// A source in memory that may wait before each read.
type Slow = SlowSource<MemSource>;

fn source_of(rt: &impl Abort, alloc: Global, input: &[u8], by: Devices) -> Result<Slow, Fail> {
    assert!(rt; 1 <= by.most);
    let fail = vec![in alloc; by.fails]?;
    let bytes = Vec::from_slice(alloc, input)?;
    Ok(SlowSource::new(MemSource::new(bytes, by.most, fail)))
}

fn sink_of(alloc: Global, by: Devices) -> Result<MemSink, Fail> {
    Ok(MemSink::new(alloc, by.budget, Vec::new(alloc))?)
}

// Runs a node, which stands for a network of gates.
fn run<M: Node>(
    alloc: Global,
    node: M,
    keep: bool,
    source: &mut Slow,
    sink: &mut MemSink,
) -> Result<Ending, RunFault> {
    run_stream::<Gate, M, Slow, MemSink>(alloc, node, Version::One, keep, source, sink)
}

// Runs a node over an input and compares: how it ends, what the sink took, and how many records were rejected.
fn check<M: Node>(
    rt: &impl Abort,
    alloc: Global,
    node: M,
    input: &[u8],
    by: Devices,
    kind: Kind,
    out: &[u8],
    rejected: u64,
) -> Result<(), Fail> {
    let mut source = source_of(rt, alloc, input, by)?;
    let mut sink = sink_of(alloc, by)?;
    let answer = run(alloc, node, false, &mut source, &mut sink);
    assert_eq!(rt; summary(&answer), (kind, rejected));
    assert_eq!(rt; sink.taken(), out);
    Ok(())
}

// Runs a gate over a whole input, in pieces of every size.
fn check_whole(
    rt: &impl Abort,
    alloc: Global,
    most: u64,
    input: &[u8],
    out: &[u8],
    rejected: u64,
) -> Result<(), Fail> {
    for size in 1..10 {
        let by = Devices {
            most: size,
            ..SOUND
        };
        check(rt, alloc, Gate::of(most), input, by, DONE, out, rejected)?;
    }
    Ok(())
}

// A gate of `most` records ends behind so many, and one of 0 never does.
#[test]
fn whole_inputs(rt: HostRuntime) -> Result<(), Fail> {
    for (most, input, out, rejected) in [
        (0, b"".as_slice(), b"".as_slice(), 0),
        (0, b"\n", b"\n", 0),
        (0, b"1", b"1\n", 0),
        (0, b"\r\n\xff", b"\r\n\xff\n", 0),
        (0, b"1\n2\ta\n\n\n345", b"1\n\n\n345\n", 1),
        (2, b"1\n2\n3\n4", b"1\n2\n", 0),
        (2, b"1\n2\na\tb\n", b"1\n2\n", 0),
        (5, b"1\n2\n", b"1\n2\n", 0),
    ] {
        check_whole(&rt, rt.alloc(), most, input, out, rejected)?;
    }
    Ok(())
}

#[test]
fn records_at_the_end(rt: HostRuntime) -> Result<(), Fail> {
    for (input, out) in [
        (b"".as_slice(), b"".as_slice()),
        (b"1\n2\ta\n", b"2\ta\n"),
        (b"1\n2\n3", b"3\n"),
    ] {
        check(&rt, rt.alloc(), Last::new(), input, SOUND, DONE, out, 0)?;
    }
    Ok(())
}

// What an open gate's run rejects of records of two fields, of one and of two.
fn rejects(rt: &impl Abort, alloc: Global, keep: bool) -> Result<Report, Fail> {
    let by = Devices {
        most: 4,
        fails: 0,
        budget: 10,
    };
    let mut source = source_of(rt, alloc, b"a\tb\n1\nc\t\n", by)?;
    let mut sink = sink_of(alloc, by)?;
    let ending = run(alloc, Gate::open(), keep, &mut source, &mut sink);
    assert_eq!(rt; sink.taken(), b"1\n".as_slice());
    Ok(ending.ok().ok_or("it broke off")?.report)
}

// Whether a record is there, and is the one of this line.
fn shows(r: Option<&Record>, line: &[u8]) -> bool {
    match r {
        Some(r) => r.joined() == line,
        None => false,
    }
}

// Two records are counted, and they are kept only where that is asked for.
fn expect_rejects(rt: &impl Abort, report: &Report, keep: bool) {
    let kept = if keep { 2 } else { 0 };
    assert_eq!(rt; (report.rejected, report.kept.len()), (2, kept));
    assert_eq!(rt; shows(report.kept.get(0), b"a\tb"), keep);
    assert_eq!(rt; shows(report.kept.get(1), b"c\t"), keep);
}

#[test]
fn rejected_records_are_counted(rt: HostRuntime) -> Result<(), Fail> {
    for keep in [true, false] {
        let report = rejects(&rt, rt.alloc(), keep)?;
        expect_rejects(&rt, &report, keep);
    }
    Ok(())
}
