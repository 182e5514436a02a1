// What the units of a network are made with.
ghost use Rattle.std.specs.Prelude.{◌≡◌, ◌++◌, [], ◌∷◌, OnOk};

use crate::NetUnit;
use ff_node::Node;
use ff_rec::NoMemory;
use std::alloc::Global;

/// What the units of a network are made with: the heap, the limit of the tasks of a wrap, and whether rejects are kept.
#[derive(Clone, Copy)]
pub(crate) struct Making {
    pub(crate) alloc: Global,
    pub(crate) limit: u64,
    pub(crate) keep: bool,
}

/// Adds this unit.
pub(crate) fn add_unit<N: Node>(
    unit: NetUnit<N>,
    units: &mut Vec<NetUnit<N>>,
) -> Result<(), NoMemory>
    ensures { OnOk result (units.new.items ≡ units.old.items ++ unit ∷ []) }
{
    units.push(unit)?;
    Ok(())
}
