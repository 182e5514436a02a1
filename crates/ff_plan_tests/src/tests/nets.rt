// Networks for tests.
ghost use Rattle.std.specs.Prelude.{◌≤◌};

use ff_net::{Net, Route, Sched, Test, Version, check};
use ff_node::{Class, Cmp};
use ff_plan::{Layout, Queue, plan};
use ff_test_nodes::Silent;
use std::alloc::{AllocError, Global};
use std::test::Fail;

/// A network, where there was memory for it.
pub(super) type Made = Result<Net<Silent>, AllocError>;

/// The plan of an accepted network with such edges.
pub(super) fn plan_with(alloc: Global, net: Made, cap: u32, queue: Queue) -> Result<Layout, Fail>
    requires low { 1 ≤ cap }
    requires high { cap ≤ 4096 }
{
    let checked = check(net?, Version::Two).ok().ok_or("refused")?;
    Ok(plan(alloc, &checked, cap, queue)?)
}

/// The rule that a network breaks; 0 where it keeps them all.
pub(super) fn broken(net: Made, version: Version) -> Result<u8, Fail> {
    match check(net?, version) {
        Ok(_checked) => Ok(0),
        Err(fault) => Ok(fault.rule),
    }
}

pub(super) fn leaf(class: Class) -> Made {
    Ok(Net::Leaf(Silent { class }))
}

pub(super) fn id() -> Made {
    leaf(Class::Plain)
}

pub(super) fn pipe(alloc: Global, first: Made, second: Made) -> Made {
    Ok(Net::Pipe(vec![in alloc; first?, second?]?))
}

pub(super) fn farm(alloc: Global, workers: u32, sched: Sched, worker: Made) -> Made {
    Ok(Net::Farm {
        workers,
        sched,
        worker: Box::new(alloc, worker?)?,
    })
}

pub(super) fn ofarm(alloc: Global, workers: u32, sched: Sched, worker: Made) -> Made {
    Ok(Net::OFarm {
        workers,
        sched,
        worker: Box::new(alloc, worker?)?,
    })
}

pub(super) fn a2a(alloc: Global, left: u32, route: Route, right: u32, right_node: Made) -> Made {
    Ok(Net::A2a {
        left,
        left_node: Box::new(alloc, id()?)?,
        route,
        right,
        right_node: Box::new(alloc, right_node?)?,
    })
}

pub(super) fn wrap(alloc: Global, workers: u32) -> Made {
    Ok(Net::Wrap {
        workers,
        worker: Box::new(alloc, id()?)?,
        test: Test {
            field: 1,
            cmp: Cmp::Gt,
            value: 1,
        },
    })
}
