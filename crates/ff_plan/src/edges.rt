// The edges between the units of a plan.
ghost use Rattle.std.specs.Prelude.{◌≡◌, ◌<◌, ◌^◌, map, length, IfOk};
ghost use Rattle.ff_plan.specs.Plans.{is_among, party_at, is_on_demand, edge_of};
ghost use Rattle.ff_plan.specs.Rows.{range};

use crate::on_demand::on_demand;
use crate::{Edge, Party, Queue, UnitRow};
use ff_rec::NoMemory;
use std::alloc::Global;

/// So many edges between these units, by their numbers.
pub(crate) fn edges_of(
    alloc: Global,
    units: &[UnitRow],
    count: u32,
    cap: u32,
    queue: Queue,
) -> Result<Vec<Edge>, NoMemory>
    requires { length units.now < 2 ^ 32 }
    ensures { IfOk result (λ edges. edges.items ≡ map (edge_of units.now cap queue) (range 0 count)) }
{
    let mut edges = Vec::new(alloc);
    for edge in 0..count {
        edges.push(edge_of(units, cap, queue, edge))?;
    }
    Ok(edges)
}

// The edge with this number.
fn edge_of(units: &[UnitRow], cap: u32, queue: Queue, edge: u32) -> Edge
    requires { length units.now < 2 ^ 32 }
    ensures { result ≡ edge_of units.now cap queue edge }
{
    let writer = writer_of(units, edge);
    let reader = reader_of(units, edge);
    if is_on_demand(units, edge) {
        Edge {
            writer,
            reader,
            cap: 1,
            queue: Queue::Ring,
        }
    } else {
        Edge {
            writer,
            reader,
            cap,
            queue,
        }
    }
}

// Who writes an edge.
fn writer_of(units: &[UnitRow], edge: u32) -> Party
    requires { length units.now < 2 ^ 32 }
    ensures { result ≡ party_at (λ row. row.outs) edge 0 units.now }
{
    for (i, unit) in units.iter().enumerate() {
        if is_among(edge, unit.outs.as_slice()) {
            return Party::Unit(i as u32);
        }
    }
    Party::Caller
}

// Who reads an edge.
fn reader_of(units: &[UnitRow], edge: u32) -> Party
    requires { length units.now < 2 ^ 32 }
    ensures { result ≡ party_at (λ row. row.ins) edge 0 units.now }
{
    for (i, unit) in units.iter().enumerate() {
        if is_among(edge, unit.ins.as_slice()) {
            return Party::Unit(i as u32);
        }
    }
    Party::Caller
}

// Whether records are handed out on an edge on demand.
fn is_on_demand(units: &[UnitRow], edge: u32) -> bool
    ensures { result ≡ is_on_demand units.now edge }
{
    for unit in units {
        if is_among(edge, on_demand(unit)) {
            return true;
        }
    }
    false
}

// Whether an edge is one of these.
fn is_among(edge: u32, edges: &[u32]) -> bool
    ensures { result ≡ is_among edge edges.now }
{
    for other in edges {
        if edge == *other {
            return true;
        }
    }
    false
}
