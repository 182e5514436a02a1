// How many units networks have: a stage for each leaf and each comb, and the deals, merges and masters of the forms with copies.
use super::{Gate, checked, leaf};
use ff_net::{Net, Route, Sched, Test};
use ff_node::Cmp;
use ff_steps::make_units;
use std::alloc::Global;
use std::test::Fail;

fn count(alloc: Global, net: Net<Gate>) -> Result<usize, Fail> {
    Ok(make_units(alloc, &checked(net)?, 1, true)?.len())
}

fn comb(alloc: Global) -> Result<Net<Gate>, Fail> {
    Ok(Net::Comb(vec![in alloc; leaf(false), leaf(true)]?))
}

fn pipe(alloc: Global) -> Result<Net<Gate>, Fail> {
    let inner = Net::Pipe(vec![in alloc; leaf(false)]?);
    Ok(Net::Pipe(vec![in alloc; leaf(false), comb(alloc)?, inner]?))
}

#[test]
fn a_unit_for_each_leaf_and_each_comb(rt: HostRuntime) -> Result<(), Fail> {
    let net = pipe(rt.alloc())?;
    assert_eq!(rt; count(rt.alloc(), net)?, 3);
    Ok(())
}

// A deal and a merge stand round the workers, of which each is a farm of four units.
#[test]
fn farms_in_a_farm(rt: HostRuntime) -> Result<(), Fail> {
    let alloc = rt.alloc();
    let farm = Net::Farm {
        workers: 2,
        sched: Sched::Rr,
        worker: Box::new(alloc, leaf(false))?,
    };
    let net = Net::Farm {
        workers: 3,
        sched: Sched::Od,
        worker: Box::new(alloc, farm)?,
    };
    assert_eq!(rt; count(alloc, net)?, 14);
    Ok(())
}

// A deal and a merge, two nodes with a deal each, and three with a merge each.
#[test]
fn an_all_to_all(rt: HostRuntime) -> Result<(), Fail> {
    let alloc = rt.alloc();
    let net = Net::A2a {
        left: 2,
        left_node: Box::new(alloc, leaf(false))?,
        route: Route::Rr,
        right: 3,
        right_node: Box::new(alloc, leaf(true))?,
    };
    assert_eq!(rt; count(alloc, net)?, 12);
    Ok(())
}

// A master and three workers, each of which runs two nodes as one.
#[test]
fn a_wrap(rt: HostRuntime) -> Result<(), Fail> {
    let alloc = rt.alloc();
    let net = Net::Wrap {
        workers: 3,
        worker: Box::new(alloc, comb(alloc)?)?,
        test: Test {
            field: 1,
            cmp: Cmp::Eq,
            value: 1,
        },
    };
    assert_eq!(rt; count(alloc, net)?, 4);
    Ok(())
}
