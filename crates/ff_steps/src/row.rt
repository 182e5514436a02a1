// Which edges a unit reads and writes.
ghost use Rattle.std.specs.Prelude.{◌≡◌, IfOk};
ghost use Rattle.ff_steps.specs.NetCores.{port_row};

use ff_plan::UnitRow;
use ff_rec::NoMemory;
use std::alloc::Global;
use std::marker::Model;

/// The edges that a unit reads and those that it writes, in the order of its ins and outs.
#[derive(Drop)]
pub(crate) struct PortRow {
    ins: Vec<usize>,
    outs: Vec<usize>,
}

impl Model for PortRow {
    ghost use Rattle.ff_steps.specs.Wiring.{Row};

    ghost Value = { Row };

    ghost view = { λ r. record { ins = r.ins.items; outs = r.outs.items } };
}

impl PortRow {
    /// Those of a unit of a plan.
    pub(crate) fn of(alloc: Global, unit: &UnitRow) -> Result<PortRow, NoMemory>
        ensures { IfOk result (λ row. row ≡ port_row unit.now) }
    {
        let ins = numbers(alloc, unit.ins.as_slice())?;
        let outs = numbers(alloc, unit.outs.as_slice())?;
        Ok(PortRow { ins, outs })
    }

    /// The edges of its ins.
    pub(crate) fn ins(&self) -> &[usize]
        ensures { result.now ≡ self.now.ins }
    {
        &self.ins
    }

    /// The edges of its outs.
    pub(crate) fn outs(&self) -> &[usize]
        ensures { result.now ≡ self.now.outs }
    {
        &self.outs
    }
}

// These edges as indexes.
fn numbers(alloc: Global, edges: &[u32]) -> Result<Vec<usize>, NoMemory>
    ensures { IfOk result (λ numbers. numbers.items ≡ edges.now) }
{
    let mut numbers = Vec::with_capacity(alloc, edges.len())?;
    for edge in edges {
        numbers.push(*edge as usize)?;
    }
    Ok(numbers)
}
