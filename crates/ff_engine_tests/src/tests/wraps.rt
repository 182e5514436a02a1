// Networks with a wrap by threads.
use super::devices::{Case, DONE, Host, Kind, RINGS, Ring, check_refused, checked, compare};
use ff_engine::{Delivery, NetFault};
use ff_net::{Checked, Net, Test};
use ff_rec::Cmp;
use ff_stream::{RunFault, Stop};
use ff_test_nodes::Gate;
use std::alloc::Global;
use std::test::Fail;

const READ: Kind = Kind::Ended(Stop::Read);

const WRITE: Kind = Kind::Broken(NetFault::Run(RunFault::Write));

const TASKS: Kind = Kind::Broken(NetFault::Run(RunFault::Tasks));

// The input, the read that fails, what the sink takes in all, and the limit; then how the run ends, what the sink took, and
// how many records were rejected. Pieces of two bytes. The records are alike where several are sent, so that their order
// isn't seen.
const ENDS: [(&[u8], u64, usize, u64, Kind, &[u8], usize); 9] = [
    (b"4\n4\n4", 0, 99, 3, DONE, b"4\n4\n4\n", 0),
    (b"4\n4\n4", 0, 99, 2, TASKS, b"", 0),
    (b"4\n4\ta\n4", 0, 99, 3, DONE, b"4\n4\n", 1),
    (b"", 0, 99, 1, DONE, b"", 0),
    // It comes back again and again.
    (b"6\n", 0, 99, 1000, TASKS, b"", 0),
    (b"4\n4\n445", 4, 99, 2, READ, b"4\n4\n", 0),
    (b"4\n4\n445", 4, 99, 1, TASKS, b"", 0),
    (b"4\n4\n", 0, 3, 2, WRITE, b"4\n4", 0),
    (b"4\n4\n", 0, 0, 1, TASKS, b"", 0),
];

// A wrap of two gates: what they send on comes back to them where it is above 5. Three units.
fn wrapped(alloc: Global) -> Result<Checked<Gate>, Fail> {
    checked(Net::Wrap {
        workers: 2,
        worker: Box::new(alloc, Net::Leaf(Gate))?,
        test: Test {
            field: 1,
            cmp: Cmp::Gt,
            value: 5,
        },
    })
}

// Runs the wrap to each end, with such rings.
fn check_ends<R: Host>(rt: &R, alloc: Global, net: &Checked<Gate>, ring: Ring) -> Result<(), Fail> {
    for (input, fails, budget, limit, kind, out, rejected) in ENDS {
        let case = Case {
            input,
            fails,
            budget,
            limit,
            kind,
            out,
            rejected,
        };
        compare(rt, alloc, net, 3, ring, case)?;
    }
    Ok(())
}

#[test]
fn wraps_of_every_end(rt: HostRuntime) -> Result<(), Fail> {
    let net = wrapped(rt.alloc())?;
    for ring in RINGS {
        check_ends(&rt, rt.alloc(), &net, ring)?;
    }
    Ok(())
}

// Each start is refused in turn.
#[test]
fn refused_starts_of_a_wrap(rt: HostRuntime) -> Result<(), Fail> {
    let net = wrapped(rt.alloc())?;
    for refused in 1..=3 {
        check_refused(&rt, rt.alloc(), &net, Delivery::Gathered, 1000, refused)?;
    }
    Ok(())
}
