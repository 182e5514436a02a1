// The plan of a network.
ghost use Rattle.std.specs.Prelude.{◌≡◌, ◌≤◌, IfOk};
ghost use Rattle.ff_net.specs.Tree.{tree_of};
ghost use Rattle.ff_plan.specs.Plans.{plan_of};

use crate::edges::edges_of;
use crate::laying::lay;
use crate::span::Span;
use crate::{Layout, Queue};
use ff_net::laws::checked_networks_are_good;
use ff_net::{Checked, Path};
use ff_node::Node;
use ff_rec::NoMemory;
use std::alloc::Global;

/// The units of a network and the edges between them. Each edge is a queue of this kind with rings of `cap` slots; but from an
/// on-demand deal to the workers or merges go rings of one slot, so that a record goes to one that is free.
pub fn plan<N: Node>(
    alloc: Global,
    checked: &Checked<N>,
    cap: u32,
    queue: Queue,
) -> Result<Layout, NoMemory>
    requires low { 1 ≤ cap }
    requires high { cap ≤ 4096 }
    ensures { IfOk result (λ plan. plan ≡ plan_of (tree_of checked.now.net) cap queue) }
{
    checked_networks_are_good(checked);
    let mut units = Vec::new(alloc);
    let whole = Span {
        from: 0,
        to: 1,
        inner: 2,
    };
    let count = lay(checked.net(), &Path::top(), whole, &mut units)?;
    let edges = edges_of(alloc, &units, count, cap, queue)?;
    Ok(Layout { units, edges })
}
