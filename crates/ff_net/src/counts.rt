// How many units and edges the plan of a network has. The counts stand still at their last value.
ghost use Rattle.std.specs.Prelude.{◌≡◌, ◌+◌, ◌*◌};
ghost use Rattle.ff_node.specs.Sends.{counted};
ghost use Rattle.ff_net.specs.Tree.{tree_of, trees_of};
ghost use Rattle.ff_net.specs.Counts.{units, all_units, inner_edges, all_inner_edges, edges, pick_edges};

use crate::{Net, Sched};

/// The units of its plan.
#[cycle(units)]
#[tactic(auto, using(crate::specs::Tree::tree_forms))]
pub(crate) fn units<N>(net: &Net<N>) -> u64
    ensures { result ≡ counted (units (tree_of net.now)) }
{
    match net {
        Net::Leaf(_) | Net::Comb(_) => 1,
        Net::Pipe(parts) => all_units(parts),
        Net::Farm {
            workers,
            worker,
            ..
        }
        | Net::OFarm {
            workers,
            worker,
            ..
        } => u64::from(*workers)
            .saturating_mul(units(worker))
            .saturating_add(2),
        Net::A2a { left, right, .. } => 2 * u64::from(*left) + 2 * u64::from(*right) + 2,
        Net::Wrap { workers, .. } => u64::from(*workers) + 1,
    }
}

#[cycle(units)]
#[tactic(auto, using(crate::specs::Tree::tree_forms))]
fn all_units<N>(parts: &[Net<N>]) -> u64
    ensures { result ≡ counted (all_units (trees_of parts.now)) }
{
    let mut sum: u64 = 0;
    for part in parts {
        sum = sum.saturating_add(units(part));
    }
    sum
}

/// The edges of its plan.
pub(crate) fn edges<N>(net: &Net<N>) -> u64
    ensures { result ≡ counted (edges (tree_of net.now)) }
{
    inner_edges(net).saturating_add(2)
}

#[cycle(edges)]
#[tactic(auto, using(crate::proofs::CountLaws::counted_parts))]
fn inner_edges<N>(net: &Net<N>) -> u64
    ensures { result ≡ counted (inner_edges (tree_of net.now)) }
{
    match net {
        Net::Leaf(_) | Net::Comb(_) => 0,
        Net::Pipe(parts) => {
            let between = parts.len().saturating_sub(1) as u64;
            between.saturating_add(all_inner_edges(parts))
        }
        Net::Farm {
            workers,
            worker,
            ..
        } => farm_edges(*workers, worker),
        Net::OFarm {
            workers,
            sched,
            worker,
        } => farm_edges(*workers, worker).saturating_add(pick_edges(*sched)),
        Net::A2a { left, right, .. } => {
            let left = u64::from(*left);
            let right = u64::from(*right);
            (2 * left + left * right).saturating_add(2 * right)
        }
        Net::Wrap { workers, .. } => 2 * u64::from(*workers),
    }
}

// The edges of its workers, and those to them and from them.
#[cycle(edges)]
fn farm_edges<N>(workers: u32, worker: &Net<N>) -> u64
    ensures { result ≡ counted (workers * inner_edges (tree_of worker.now) + 2 * workers) }
{
    let workers = u64::from(workers);
    workers
        .saturating_mul(inner_edges(worker))
        .saturating_add(2 * workers)
}

#[cycle(edges)]
#[tactic(auto, using(crate::specs::Tree::tree_forms))]
fn all_inner_edges<N>(parts: &[Net<N>]) -> u64
    ensures { result ≡ counted (all_inner_edges (trees_of parts.now)) }
{
    let mut sum: u64 = 0;
    for part in parts {
        sum = sum.saturating_add(inner_edges(part));
    }
    sum
}

// The edge from an ordered farm's deal to its merge.
fn pick_edges(sched: Sched) -> u64
    ensures { result ≡ pick_edges sched }
{
    match sched {
        Sched::Rr => 0,
        Sched::Od => 1,
    }
}
