// The queues of a plan, and the rows of its units.
ghost use Rattle.std.specs.Prelude.{◌≡◌, ◌≤◌, map, All, IfOk};
ghost use Rattle.ff_steps.specs.NetCores.{edge_queues, port_row};

use crate::row::PortRow;
use ff_plan::{Edge, UnitRow};
use ff_port::PlainQueue;
use ff_rec::{NoMemory, Record};
use std::alloc::Global;

/// An empty queue for each edge.
pub(crate) fn queues(alloc: Global, edges: &[Edge]) -> Result<Vec<PlainQueue<Record>>, NoMemory>
    requires { All (λ e. 1 ≤ e.cap) edges.now }
    ensures { IfOk result (λ queues. queues.items ≡ edge_queues edges.now) }
{
    let mut queues = Vec::with_capacity(alloc, edges.len())?;
    for edge in edges {
        queues.push(PlainQueue::new(alloc, edge.cap as usize)?)?;
    }
    Ok(queues)
}

/// The row of each unit.
pub(crate) fn rows(alloc: Global, units: &[UnitRow]) -> Result<Vec<PortRow>, NoMemory>
    ensures { IfOk result (λ rows. rows.items ≡ map port_row units.now) }
{
    let mut rows = Vec::with_capacity(alloc, units.len())?;
    for unit in units {
        rows.push(PortRow::of(alloc, unit)?)?;
    }
    Ok(rows)
}
