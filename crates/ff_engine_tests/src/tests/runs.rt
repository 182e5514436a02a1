// Networks by threads.
use super::devices::{
    Case, DONE, Host, Kind, RINGS, Ring, check_refused, checked, compare, expect_answer,
    expect_taken, run, sink_of,
};
use super::meeting::{Flags, Meets, Place};
use ff_engine::{Delivery, NetFault};
use ff_io::{MemSink, MemSource};
use ff_net::{Checked, Net, Route, Sched, Test};
use ff_rec::Cmp;
use ff_spawn::Threads;
use ff_stream::{Ending, RunFault, Stop};
use ff_test_nodes::Gate;
use std::alloc::Global;
use std::process::Abort;
use std::sync::Arc;
use std::test::Fail;

const READ: Kind = Kind::Ended(Stop::Read);

const WRITE: Kind = Kind::Broken(NetFault::Run(RunFault::Write));

// The input, the read that fails, and what the sink takes in all; then how the run ends, what the sink took, and how many
// records were rejected. Pieces of two bytes: the third gives half of the last line.
const ENDS: [(&[u8], u64, usize, Kind, &[u8], usize); 6] = [
    (b"1\n2\ta\n\n345", 0, 99, DONE, b"1\n\n345\n", 1),
    (b"", 0, 99, DONE, b"", 0),
    (b"1\n2\n345", 1, 99, READ, b"", 0),
    (b"1\n2\n345", 4, 99, READ, b"1\n2\n", 0),
    (b"1\n22\na\tb\n3", 0, 0, WRITE, b"", 0),
    (b"1\n22\na\tb\n3", 0, 3, WRITE, b"1\n2", 0),
];

// A pipe of a gate, a comb of two and a pipe of two: four units.
pub fn gates(alloc: Global) -> Result<Net<Gate>, Fail> {
    let comb = vec![in alloc; Net::Leaf(Gate), Net::Leaf(Gate)]?;
    let pipe = vec![in alloc; Net::Leaf(Gate), Net::Leaf(Gate)]?;
    Ok(Net::Pipe(vec![in alloc; Net::Leaf(Gate), Net::Comb(comb), Net::Pipe(pipe)]?))
}

// Runs the gates to each end, with such rings.
fn check_ends<R: Host>(rt: &R, alloc: Global, net: &Checked<Gate>, ring: Ring) -> Result<(), Fail> {
    for (input, fails, budget, kind, out, rejected) in ENDS {
        let case = Case {
            input,
            fails,
            budget,
            limit: 1,
            kind,
            out,
            rejected,
        };
        compare(rt, alloc, net, 4, ring, case)?;
    }
    Ok(())
}

#[test]
fn runs_of_every_end(rt: HostRuntime) -> Result<(), Fail> {
    let net = checked(gates(rt.alloc())?)?;
    for ring in RINGS {
        check_ends(&rt, rt.alloc(), &net, ring)?;
    }
    Ok(())
}

// Each start is refused in turn.
#[test]
fn refused_starts(rt: HostRuntime) -> Result<(), Fail> {
    let net = checked(gates(rt.alloc())?)?;
    for refused in 1..=4 {
        check_refused(&rt, rt.alloc(), &net, Delivery::Prompt, 1, refused)?;
    }
    Ok(())
}

// A node at this place.
fn meets(place: Place, flags: &Arc<Flags>) -> Result<Net<Meets>, Fail> {
    Ok(Net::Leaf(Meets {
        place,
        flags: Arc::try_clone(flags)?,
    }))
}

// Runs a network over two records, which one read gives.
fn run_two<R: Host>(
    rt: &R,
    alloc: Global,
    net: &Checked<Meets>,
    (ring, limit): (Ring, u64),
    sink: &mut MemSink,
    spawner: &mut Threads<R>,
) -> Result<Result<Ending, NetFault>, Fail> {
    let input = Vec::from_slice(alloc, b"1\n2\n")?;
    let mut source = MemSource::new(input, 64, Vec::new(alloc));
    Ok(run(rt, alloc, net, ring, limit, &mut source, sink, spawner))
}

// A pipe of two nodes that wait for one another, each on a record of its own.
fn line(alloc: Global, flags: &Arc<Flags>) -> Result<Net<Meets>, Fail> {
    let mut parts = Vec::new(alloc);
    parts.push(meets(Place::First, flags)?)?;
    parts.push(meets(Place::Second, flags)?)?;
    Ok(Net::Pipe(parts))
}

fn check_line<R: Host>(
    rt: &R,
    alloc: Global,
    net: &Checked<Meets>,
    ring: Ring,
) -> Result<(), Fail> {
    let mut sink = sink_of(alloc, 99)?;
    let mut spawner = Threads::new(rt.clone()?);
    let answer = run_two(rt, alloc, net, (ring, 1), &mut sink, &mut spawner)?;
    expect_answer(rt, (b"1\n2\n", ring.0), answer, DONE, 0);
    expect_taken(rt, &sink, b"1\n2\n");
    // Two units, two records and an end for each unit.
    assert_eq!(rt; (spawner.starts(), spawner.worked()), (2, 6));
    Ok(())
}

fn expect_both_met(rt: &impl Abort, flags: &Flags) {
    assert!(rt; flags.first_met.load());
    assert!(rt; flags.second_met.load());
}

// Over such rings each record goes on before the next one is begun.
const AT_ONCE: [Ring; 4] = [
    (1, Delivery::Prompt),
    (1, Delivery::Gathered),
    (512, Delivery::Prompt),
    (4096, Delivery::Prompt),
];

fn check_line_meets<R: Host>(rt: &R, alloc: Global, ring: Ring) -> Result<(), Fail> {
    let flags = Arc::new(alloc, Flags::new())?;
    let net = checked(line(alloc, &flags)?)?;
    check_line(rt, alloc, &net, ring)?;
    expect_both_met(rt, &flags);
    Ok(())
}

#[test]
fn meet_line(rt: HostRuntime) -> Result<(), Fail> {
    for ring in AT_ONCE {
        check_line_meets(&rt, rt.alloc(), ring)?;
    }
    Ok(())
}

// Copies of a node: in a farm, in an ordered farm, in a wrap that nothing goes back in, and in the left set of an all-to-all.
fn copies(alloc: Global, flags: &Arc<Flags>, form: u32) -> Result<Net<Meets>, Fail> {
    let worker = Box::new(alloc, meets(Place::Worker, flags)?)?;
    Ok(match form {
        0 => Net::Farm {
            workers: 2,
            sched: Sched::Rr,
            worker,
        },
        1 => Net::OFarm {
            workers: 2,
            sched: Sched::Rr,
            worker,
        },
        2 => Net::Wrap {
            workers: 2,
            worker,
            test: Test {
                field: 1,
                cmp: Cmp::Gt,
                value: 2,
            },
        },
        _ => Net::A2a {
            left: 2,
            left_node: worker,
            route: Route::Rr,
            right: 1,
            right_node: Box::new(alloc, meets(Place::Passing, flags)?)?,
        },
    })
}

// Both records come, in their order where the farm is an ordered one.
fn expect_records(rt: &impl Abort, taken: &[u8], form: u32) {
    let as_read = taken == b"1\n2\n".as_slice();
    assert!(rt;
        as_read || (form != 1 && taken == b"2\n1\n".as_slice()),
        "{form}: {taken:?}"
    );
}

fn check_copies<R: Host>(
    rt: &R,
    alloc: Global,
    net: &Checked<Meets>,
    ring: Ring,
    (form, units): (u32, u64),
) -> Result<(), Fail> {
    let mut sink = sink_of(alloc, 99)?;
    let mut spawner = Threads::new(rt.clone()?);
    let answer = run_two(rt, alloc, net, (ring, 1000), &mut sink, &mut spawner)?;
    expect_answer(rt, (b"1\n2\n", form), answer, DONE, 0);
    expect_records(rt, sink.taken(), form);
    assert_eq!(rt; spawner.starts(), units, "{form}");
    Ok(())
}

// Two copies of a node meet, of which one waits for the other.
fn check_meeting<R: Host>(
    rt: &R,
    alloc: Global,
    ring: Ring,
    (form, units): (u32, u64),
) -> Result<(), Fail> {
    let flags = Arc::new(alloc, Flags::new())?;
    let net = checked(copies(alloc, &flags, form)?)?;
    check_copies(rt, alloc, &net, ring, (form, units))?;
    assert!(rt; flags.first_met.load(), "{form} over {ring:?}");
    Ok(())
}

// Each form, and its units.
const FORMS: [(u32, u64); 4] = [(0, 4), (1, 4), (2, 3), (3, 8)];

fn check_forms<R: Host>(rt: &R, alloc: Global, ring: Ring) -> Result<(), Fail> {
    for form in FORMS {
        check_meeting(rt, alloc, ring, form)?;
    }
    Ok(())
}

// Copies meet however records are handed over, as `ffrun` does it too: in full bundles.
#[test]
fn meet_copies(rt: HostRuntime) -> Result<(), Fail> {
    for ring in RINGS {
        check_forms(&rt, rt.alloc(), ring)?;
    }
    Ok(())
}
