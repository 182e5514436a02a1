// Nodes in a row, gathered into combs.
ghost use Rattle.std.specs.Prelude.{◌≡◌, ◌<◌, ◌≤◌, ◌++◌, length, IfOk, OnOk};
ghost use Rattle.ff_mean.specs.Pipelines.{all_nodes};

use ff_node::{Comb, Node};
use ff_rec::NoMemory;
use std::alloc::Global;
use std::mem;

/// The most nodes of a comb.
const MOST_PARTS: usize = 64;

/// Combs of up to 64 nodes each that hold these nodes in their order.
pub(crate) fn group<M: Node>(alloc: Global, nodes: Vec<M>) -> Result<Vec<Comb<M>>, NoMemory>
    ensures { IfOk result (λ groups. all_nodes groups.items ≡ nodes.items) }
{
    let mut groups = Vec::new(alloc);
    let mut parts = Vec::new(alloc);
    for node in nodes {
        parts.push(node)?;
        if parts.len() == MOST_PARTS {
            let full = mem::replace(&mut parts, Vec::new(alloc));
            push_comb(&mut groups, full)?;
        }
    }
    if !parts.is_empty() {
        push_comb(&mut groups, parts)?;
    }
    Ok(groups)
}

// Adds the comb of these nodes.
fn push_comb<M: Node>(groups: &mut Vec<Comb<M>>, parts: Vec<M>) -> Result<(), NoMemory>
    requires some { 0 < length parts.items }
    requires few { length parts.items ≤ 64 }
    ensures { OnOk result (all_nodes groups.new.items ≡ all_nodes groups.old.items ++ parts.items) }
{
    groups.push(Comb::new(parts))?;
    Ok(())
}
