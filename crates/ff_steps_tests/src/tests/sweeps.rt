// How many sweeps end a network, by hand, and what it gave.
use super::seen::{holds, output, same};
use super::sieve::{SIEVE, Sieve};
use super::{checked, records};
use ff_net::{Net, Sched};
use ff_steps::NetCore;
use ff_sweeps::{Sweeps, run_sweeps};
use std::alloc::Global;
use std::process::Abort;
use std::test::Fail;

// A network with rings of so many messages: its input, and the sweeps that end it at most. The limit is the messages that cross
// all edges, twice, and the units, and two.
struct Case<'a> {
    net: Net<Sieve>,
    cap: u32,
    input: &'a str,
    most: u64,
}

fn sweeps_to_the_answer(
    rt: &impl Abort,
    alloc: Global,
    case: Case,
    out: &[u8],
) -> Result<(), Fail> {
    let Case {
        net,
        cap,
        input,
        most,
    } = case;
    let checked = checked(net)?;
    assert!(rt; 1 <= cap && cap <= 4096 && checked.sweeps());
    let input = records(alloc, input)?;
    let mut core = NetCore::new(alloc, checked, cap, 1, true, input)?;
    let ended = run_sweeps(&mut core);
    holds(rt, &(ended, most), "sweeps", is_within(ended, most));
    holds(rt, &cap, "memory was there", !core.short_of_memory());
    let output = output(alloc, &core)?;
    same(rt, &cap, &output, out);
    Ok(())
}

fn is_within(ended: Sweeps, most: u64) -> bool {
    match ended {
        Sweeps::All(made) => 1 <= made && made <= most,
        Sweeps::NoMemory => false,
    }
}

#[test]
fn sweeps_within_the_budget(rt: HostRuntime) -> Result<(), Fail> {
    let alloc = rt.alloc();
    // 1 record in, 1 out, 2 ends: 4 messages.
    let one = Case {
        net: Net::Leaf(SIEVE),
        cap: 512,
        input: "a",
        most: 11,
    };
    sweeps_to_the_answer(&rt, alloc, one, b"a\n")?;
    for cap in [1, 512] {
        // 2 records to the workers and 2 from them, each with a Mark, 2 in, 2 out, 6 ends: 18 messages; 4 units.
        let ordered = Case {
            net: Net::OFarm {
                workers: 2,
                sched: Sched::Rr,
                worker: Box::new(alloc, Net::Leaf(SIEVE))?,
            },
            cap,
            input: "b a",
            most: 42,
        };
        sweeps_to_the_answer(&rt, alloc, ordered, b"b\na\n")?;
    }
    Ok(())
}
