// Numbers of edges.
ghost use Rattle.std.specs.Prelude.{◌≡◌, ◌+◌, ◌*◌, ◌≤◌, ◌∷◌, [], IfOk};
ghost use Rattle.ff_plan.specs.Rows.{range, stride};

use ff_rec::NoMemory;
use std::alloc::Global;

/// One edge.
pub(crate) fn one(alloc: Global, edge: u32) -> Result<Vec<u32>, NoMemory>
    ensures { IfOk result (λ edges. edges.items ≡ edge ∷ []) }
{
    let mut edges = Vec::new(alloc);
    edges.push(edge)?;
    Ok(edges)
}

/// So many edges from this number on.
pub(crate) fn range(alloc: Global, first: u32, count: u32) -> Result<Vec<u32>, NoMemory>
    requires { first + count ≤ 4096 }
    ensures { IfOk result (λ edges. edges.items ≡ range first count) }
{
    let mut edges = Vec::new(alloc);
    for edge in first..first + count {
        edges.push(edge)?;
    }
    Ok(edges)
}

/// So many edges from this number on, each `step` behind the one before it.
pub(crate) fn stride(alloc: Global, step: u32, first: u32, count: u32) -> Result<Vec<u32>, NoMemory>
    requires { first + count * step ≤ 4096 }
    ensures { IfOk result (λ edges. edges.items ≡ stride step first count) }
{
    let mut edges = Vec::new(alloc);
    let mut edge = first;
    for _k in 0..count {
        edges.push(edge)?;
        edge += step;
    }
    Ok(edges)
}
