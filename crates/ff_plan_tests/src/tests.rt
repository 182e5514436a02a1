// Plans of networks, written by hand from the rules by which networks are laid.
mod nets;

use ff_net::{Path, Route, Sched, Version};
use ff_node::Class;
use ff_plan::{Edge, EdgeList, Party, Queue, UnitKind, UnitRow};
use nets::{Made, a2a, broken, farm, id, leaf, ofarm, pipe, plan_with, wrap};
use std::alloc::Global;
use std::process::Abort;
use std::test::Fail;

// A unit as it should be: its kind, its ins, its outs, and its place.
type Row<'a> = (UnitKind, &'a [u32], &'a [u32], &'a [usize]);

fn is_at(path: &Path, place: &[usize]) -> bool {
    if path.len() != place.len() {
        return false;
    }
    for k in 0..path.len() {
        if k < place.len() && path.child(k) != place[k] {
            return false;
        }
    }
    true
}

fn are(edges: &EdgeList, want: &[u32]) -> bool {
    edges.as_slice() == want
}

fn is_row(unit: &UnitRow, want: &Row) -> bool {
    unit.kind == want.0
        && are(&unit.ins, want.1)
        && are(&unit.outs, want.2)
        && is_at(&unit.path, want.3)
}

fn expect_row(rt: &impl Abort, k: usize, unit: &UnitRow, row: &Row) {
    assert!(rt; is_row(unit, row), "unit {k}");
}

fn are_rows(rt: &impl Abort, units: &[UnitRow], want: &[Row]) {
    assert_eq!(rt; units.len(), want.len());
    for (k, (unit, row)) in units.iter().zip(want).enumerate() {
        expect_row(rt, k, unit, row);
    }
}

// The plan has these units.
fn expect_rows(rt: &impl Abort, alloc: Global, net: Made, want: &[Row]) -> Result<(), Fail> {
    let plan = plan_with(alloc, net, 8, Queue::Ring)?;
    are_rows(rt, plan.units(), want);
    Ok(())
}

#[test]
fn a_farm_is_laid_as_its_rule_says(rt: HostRuntime) -> Result<(), Fail> {
    let alloc = rt.alloc();
    let rows: [Row; 5] = [
        (UnitKind::Stage, &[0], &[2], &[1]),
        (UnitKind::DealRr, &[2], &[3, 4], &[2]),
        (UnitKind::Stage, &[3], &[5], &[2, 1]),
        (UnitKind::Stage, &[4], &[6], &[2, 1]),
        (UnitKind::Merge, &[5, 6], &[1], &[2]),
    ];
    let net = pipe(alloc, id(), farm(alloc, 2, Sched::Rr, id()));
    expect_rows(&rt, alloc, net, &rows)
}

#[test]
fn a_wrap_is_laid_as_its_rule_says(rt: HostRuntime) -> Result<(), Fail> {
    let rows: [Row; 3] = [
        (UnitKind::Master, &[0, 4, 5], &[2, 3, 1], &[]),
        (UnitKind::Worker, &[2], &[4], &[1]),
        (UnitKind::Worker, &[3], &[5], &[1]),
    ];
    expect_rows(&rt, rt.alloc(), wrap(rt.alloc(), 2), &rows)
}

#[test]
fn an_ordered_farm_is_laid_as_its_rule_says(rt: HostRuntime) -> Result<(), Fail> {
    let alloc = rt.alloc();
    let rows: [Row; 4] = [
        (UnitKind::ODealOd, &[0], &[2, 3, 6], &[]),
        (UnitKind::Stage, &[2], &[4], &[1]),
        (UnitKind::Stage, &[3], &[5], &[1]),
        (UnitKind::OMergePick, &[4, 5, 6], &[1], &[]),
    ];
    expect_rows(&rt, alloc, ofarm(alloc, 2, Sched::Od, id()), &rows)
}

#[test]
fn sets_are_laid_row_by_row(rt: HostRuntime) -> Result<(), Fail> {
    let alloc = rt.alloc();
    let rows: [Row; 8] = [
        (UnitKind::DealRr, &[0], &[2], &[]),
        (UnitKind::Stage, &[2], &[3], &[1]),
        (UnitKind::DealBy(1), &[3], &[4, 5], &[]),
        (UnitKind::Merge, &[4], &[6], &[]),
        (UnitKind::Merge, &[5], &[7], &[]),
        (UnitKind::Stage, &[6], &[8], &[2]),
        (UnitKind::Stage, &[7], &[9], &[2]),
        (UnitKind::Merge, &[8, 9], &[1], &[]),
    ];
    let net = a2a(alloc, 1, Route::By(1), 2, leaf(Class::Keyed(1)));
    expect_rows(&rt, alloc, net, &rows)
}

fn is_ring_of_one(edge: &Edge) -> bool {
    edge.cap == 1 && edge.queue == Queue::Ring
}

fn is_chain_of_seven(edge: &Edge) -> bool {
    edge.cap == 7 && edge.queue == Queue::Chain
}

// Of these edges those from `first` to before `past` are rings of one slot.
fn are_rings(rt: &impl Abort, edges: &[Edge], first: usize, past: usize) {
    for (k, edge) in edges.iter().enumerate() {
        let is_laid = if first <= k && k < past {
            is_ring_of_one(edge)
        } else {
            is_chain_of_seven(edge)
        };
        assert!(rt; is_laid, "edge {k}");
    }
}

// Of the edges that are laid for chains of seven slots, those from `first` to before `past` are rings of one slot.
fn expect_rings(
    rt: &impl Abort,
    alloc: Global,
    net: Made,
    first: usize,
    past: usize,
) -> Result<(), Fail> {
    let plan = plan_with(alloc, net, 7, Queue::Chain)?;
    are_rings(rt, plan.edges(), first, past);
    Ok(())
}

#[test]
fn edges_on_demand_are_rings_of_one_slot(rt: HostRuntime) -> Result<(), Fail> {
    let alloc = rt.alloc();
    expect_rings(&rt, alloc, farm(alloc, 2, Sched::Rr, id()), 0, 0)?;
    expect_rings(&rt, alloc, farm(alloc, 2, Sched::Od, id()), 2, 4)?;
    expect_rings(&rt, alloc, a2a(alloc, 2, Route::Od, 2, id()), 6, 10)?;
    expect_rings(&rt, alloc, wrap(alloc, 2), 0, 0)?;
    expect_rings(&rt, alloc, ofarm(alloc, 2, Sched::Od, id()), 2, 4)
}

fn are_between(rt: &impl Abort, edges: &[Edge], ends: &[(Party, Party)]) {
    assert_eq!(rt; edges.len(), ends.len());
    for (edge, (writer, reader)) in edges.iter().zip(ends) {
        assert_eq!(rt; (edge.writer, edge.reader), (*writer, *reader));
    }
}

#[test]
fn edges_lie_between_their_units(rt: HostRuntime) -> Result<(), Fail> {
    let ends = [
        (Party::Caller, Party::Unit(0)),
        (Party::Unit(3), Party::Caller),
        (Party::Unit(0), Party::Unit(1)),
        (Party::Unit(0), Party::Unit(2)),
        (Party::Unit(1), Party::Unit(3)),
        (Party::Unit(2), Party::Unit(3)),
        (Party::Unit(0), Party::Unit(3)),
    ];
    let net = ofarm(rt.alloc(), 2, Sched::Od, id());
    let plan = plan_with(rt.alloc(), net, 7, Queue::Chain)?;
    are_between(&rt, plan.edges(), &ends);
    Ok(())
}

fn pairs(alloc: Global) -> Made {
    farm(alloc, 63, Sched::Rr, pipe(alloc, id(), id()))
}

fn sets(alloc: Global) -> Made {
    a2a(alloc, 39, Route::Rr, 48, id())
}

// The plan has so many units and edges.
fn expect_size(
    rt: &impl Abort,
    alloc: Global,
    net: Made,
    units: usize,
    edges: usize,
) -> Result<(), Fail> {
    let plan = plan_with(alloc, net, 1, Queue::Ring)?;
    let size = (plan.units().len(), plan.edges().len());
    assert_eq!(rt; size, (units, edges));
    Ok(())
}

// The network breaks this rule; 0 where it keeps them all.
fn expect_broken(rt: &impl Abort, net: Made, version: Version, rule: u8) -> Result<(), Fail> {
    let found = broken(net, version)?;
    assert_eq!(rt; found, rule);
    Ok(())
}

#[test]
fn the_largest_plans(rt: HostRuntime) -> Result<(), Fail> {
    let alloc = rt.alloc();
    expect_size(&rt, alloc, pairs(alloc), 128, 191)?;
    expect_broken(&rt, pairs(alloc), Version::One, 0)?;
    expect_broken(&rt, pipe(alloc, pairs(alloc), id()), Version::One, 4)?;
    expect_size(&rt, alloc, sets(alloc), 176, 2048)?;
    expect_broken(&rt, pipe(alloc, sets(alloc), id()), Version::Two, 5)
}
