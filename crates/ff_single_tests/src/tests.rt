// What no clause says: that the calls succeed while memory is there, and that the clauses mean these bytes.
mod adders;

use ff_io::{MemSink, MemSource, SlowSource, Source};
use ff_net::{Checked, Net, Test, Version, check};
use ff_rec::{Cmp, LineFault};
use ff_single::{Ending, RunFault, Stop, run_single};
use ff_test_nodes::Gate;
use std::alloc::Global;
use std::process::Abort;
use std::test::Fail;

// The devices of a run: the most that a read gives, the read that fails, counted from 1, and what the sink takes in all.
#[derive(Clone, Copy)]
struct Devices {
    most: usize,
    fails: u64,
    budget: usize,
}

// Devices that do all that is asked of them.
const SOUND: Devices = Devices {
    most: 65_536,
    fails: 0,
    budget: 200_000,
};

// How a run ends.
#[derive(Clone, Copy, Debug, PartialEq, Eq)]
enum Kind {
    Ended(Stop),
    Broken(RunFault),
}

const DONE: Kind = Kind::Ended(Stop::End);

const WRITE: Kind = Kind::Broken(RunFault::Write);

// A row of gates.
fn row(alloc: Global, count: usize) -> Result<Net<Gate>, Fail> {
    let mut parts = Vec::new(alloc);
    for _ in 0..count {
        parts.push(Net::Leaf(Gate))?;
    }
    Ok(Net::Pipe(parts))
}

// Up to 64 gates in a row, or two rows of half as many each.
fn gates(alloc: Global, count: usize) -> Result<Net<Gate>, Fail> {
    if count <= 64 {
        return row(alloc, count);
    }
    let mut rows = Vec::new(alloc);
    rows.push(row(alloc, count / 2)?)?;
    rows.push(row(alloc, count - count / 2)?)?;
    Ok(Net::Pipe(rows))
}

// A wrap of two gates, to which no result comes back.
fn wrap(alloc: Global) -> Result<Net<Gate>, Fail> {
    Ok(Net::Wrap {
        workers: 2,
        worker: Box::new(alloc, Net::Leaf(Gate))?,
        test: Test {
            field: 1,
            cmp: Cmp::Lt,
            value: -9,
        },
    })
}

// The network, which keeps all rules.
fn checked(net: Net<Gate>, version: Version) -> Result<Checked<Gate>, Fail> {
    match check(net, version) {
        Ok(checked) => Ok(checked),
        Err(_) => Err(Fail::from("the network was refused")),
    }
}

// How a run ends, how many records were rejected, and how many of them were kept.
fn summary(answer: Result<Ending, RunFault>) -> (Kind, u64, usize) {
    match answer {
        Ok(Ending { stop, report }) => (Kind::Ended(stop), report.rejected, report.kept.len()),
        Err(fault) => (Kind::Broken(fault), 0, 0),
    }
}

// Runs a network over an input and compares: how it ends, what the sink took, and how many records were rejected.
fn compare(
    rt: &impl Abort,
    alloc: Global,
    net: &Checked<Gate>,
    input: &[u8],
    by: Devices,
    kind: Kind,
    out: &[u8],
    rejected: usize,
) -> Result<(), Fail> {
    assert!(rt; 1 <= by.most);
    let bytes = Vec::from_slice(alloc, input)?;
    let mut source = MemSource::new(bytes, by.most, vec![in alloc; by.fails]?);
    let mut sink = MemSink::new(alloc, by.budget, Vec::new(alloc))?;
    let answer = run_single(alloc, net, 9, true, &mut source, &mut sink);
    assert_eq!(rt; summary(answer), (kind, rejected as u64, rejected));
    assert_eq!(rt; sink.taken(), out);
    Ok(())
}

// The networks that are run: rows of one gate, of some, and of more than a comb may have, and one with feedback.
fn networks(alloc: Global, version: Version) -> Result<Vec<Checked<Gate>>, Fail> {
    let mut list = Vec::new(alloc);
    for count in [1, 3, 66] {
        list.push(checked(gates(alloc, count)?, version)?)?;
    }
    list.push(checked(wrap(alloc)?, version)?)?;
    Ok(list)
}

#[test]
fn runs_of_every_end(rt: HostRuntime) -> Result<(), Fail> {
    let alloc = rt.alloc();
    let networks = networks(alloc, Version::One)?;
    let read = Kind::Ended(Stop::Read);
    // Pieces of two bytes: the third gives half of the last line.
    for (input, fails, budget, kind, out, rejected) in [
        (
            b"1\n2\ta\n\n345".as_slice(),
            0,
            99,
            DONE,
            b"1\n\n345\n".as_slice(),
            1,
        ),
        (b"", 0, 99, DONE, b"", 0),
        (b"1\n2\n345", 1, 99, read, b"", 0),
        (b"1\n2\n345", 4, 99, read, b"1\n2\n", 0),
        (b"1\n22\na\tb\n3", 0, 0, WRITE, b"", 0),
        (b"1\n22\na\tb\n3", 0, 3, WRITE, b"1\n2", 0),
        (b"1\n22\na\tb\n3", 0, 6, WRITE, b"1\n22\n3", 0),
    ] {
        let by = Devices {
            most: 2,
            fails,
            budget,
        };
        for net in &networks {
            compare(&rt, alloc, net, input, by, kind, out, rejected)?;
        }
    }
    // Ten tasks, of which nine are allowed.
    let net = checked(wrap(alloc)?, Version::One)?;
    let tasks = Kind::Broken(RunFault::Tasks);
    let ten = b"1\n2\n3\n4\n5\n6\n7\n8\n9\n0\n".as_slice();
    compare(&rt, alloc, &net, ten, SOUND, tasks, b"", 0)
}

// A line may have 65536 bytes in the first version, and more in the second.
#[test]
fn lines_of_both_versions(rt: HostRuntime) -> Result<(), Fail> {
    let alloc = rt.alloc();
    let mut long = vec![in alloc; b'x'; 65_537]?;
    long.push(b'\n')?;
    let mut input = Vec::from_slice(alloc, b"1\na\tb\n")?;
    input.extend_from_slice(&long)?;
    let mut whole = Vec::from_slice(alloc, b"1\n")?;
    whole.extend_from_slice(&long)?;
    let line = Kind::Ended(Stop::Line(LineFault::TooLong(3)));
    for net in &networks(alloc, Version::One)? {
        compare(&rt, alloc, net, &input, SOUND, line, b"1\n", 1)?;
    }
    for net in &networks(alloc, Version::Two)? {
        compare(&rt, alloc, net, &input, SOUND, DONE, &whole, 1)?;
    }
    Ok(())
}

// More nodes than a comb may have flow too: a sink that fails leaves the rest of the input.
#[test]
fn many_nodes_flow(rt: HostRuntime) -> Result<(), Fail> {
    let alloc = rt.alloc();
    let net = checked(gates(alloc, 66)?, Version::One)?;
    let lines = MemSource::new(Vec::from_slice(alloc, b"1\n2\n")?, 2, Vec::new(alloc));
    let mut source = SlowSource::new(lines);
    let mut sink = MemSink::new(alloc, 0, Vec::new(alloc))?;
    let answer = run_single(alloc, &net, 9, true, &mut source, &mut sink);
    assert_eq!(rt; summary(answer), (WRITE, 0, 0));
    let mut buf = [0; 4];
    assert_eq!(rt; source.read(&mut buf), Ok(2));
    assert_eq!(rt; &buf[..2], b"2\n".as_slice());
    Ok(())
}
