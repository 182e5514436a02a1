// The units of the copies of a network.
ghost use Rattle.std.specs.Prelude.{◌≡◌, ◌≤◌, ◌++◌, [], ◌∷◌, OnOk};
ghost use Rattle.ff_net.specs.Good.{Good};
ghost use Rattle.ff_net.specs.Tree.{tree_of};
ghost use Rattle.ff_steps.specs.NetUnits.{AsDeal, AsMerge};
ghost use Rattle.ff_steps.specs.PlanUnits.{units_in, times, between};
ghost use Rattle.ff_unit.specs.Deals.{opened_deal};
ghost use Rattle.ff_unit.specs.Merges.{opened_merge};

use crate::NetUnit;
use crate::making::{Making, add_unit};
use crate::units::add_units;
use ff_net::Net;
use ff_node::Node;
use ff_rec::NoMemory;
use ff_unit::{Deal, Dealing, Merge};

/// Adds a deal, so many copies of the units of a network, and a merge.
#[cycle(units)]
pub(crate) fn add_farm<N: Node>(
    making: Making,
    deal: NetUnit<N>,
    worker: &Net<N>,
    workers: u32,
    merge: NetUnit<N>,
    units: &mut Vec<NetUnit<N>>,
) -> Result<(), NoMemory>
    requires { Good N.does (tree_of worker.now) }
    ensures { OnOk result (units.new.items ≡ units.old.items
        ++ between deal (times workers (units_in N.does making.limit making.keep (tree_of worker.now))) merge) }
{
    add_unit(deal, units)?;
    add_copies(making, worker, workers, units)?;
    add_unit(merge, units)
}

/// Adds the first units of an all-to-all: its deal and the left set.
#[cycle(units)]
pub(crate) fn add_left_set<N: Node>(
    making: Making,
    node: &Net<N>,
    nodes: u32,
    units: &mut Vec<NetUnit<N>>,
) -> Result<(), NoMemory>
    requires some { 1 ≤ nodes }
    requires few { nodes ≤ 64 }
    requires good { Good N.does (tree_of node.now) }
    ensures { OnOk result (units.new.items ≡ units.old.items ++ AsDeal (opened_deal Dealing.InTurn nodes)
        ∷ times nodes (units_in N.does making.limit making.keep (tree_of node.now))) }
{
    add_unit(NetUnit::of_deal(Deal::strict(nodes)), units)?;
    add_copies(making, node, nodes, units)
}

/// Adds the last units of an all-to-all: the right set and its merge.
#[cycle(units)]
pub(crate) fn add_right_set<N: Node>(
    making: Making,
    node: &Net<N>,
    nodes: u32,
    units: &mut Vec<NetUnit<N>>,
) -> Result<(), NoMemory>
    requires some { 1 ≤ nodes }
    requires few { nodes ≤ 64 }
    requires good { Good N.does (tree_of node.now) }
    ensures { OnOk result (units.new.items ≡ units.old.items
        ++ (times nodes (units_in N.does making.limit making.keep (tree_of node.now)) ++ AsMerge (opened_merge nodes) ∷ [])) }
{
    add_copies(making, node, nodes, units)?;
    add_unit(NetUnit::of_merge(Merge::new(nodes)), units)
}

// Adds so many copies of the units of a network.
#[cycle(units)]
fn add_copies<N: Node>(
    making: Making,
    net: &Net<N>,
    copies: u32,
    units: &mut Vec<NetUnit<N>>,
) -> Result<(), NoMemory>
    requires { Good N.does (tree_of net.now) }
    ensures { OnOk result (units.new.items ≡ units.old.items
        ++ times copies (units_in N.does making.limit making.keep (tree_of net.now))) }
{
    for _ in 0..copies {
        add_units(making, net, units)?;
    }
    Ok(())
}
