// The units of a network.
ghost use Rattle.std.specs.Prelude.{◌≡◌, ◌++◌, [], ◌∷◌, true, All, IfOk, OnOk};
ghost use Rattle.ff_net.specs.Good.{Good, GoodParts};
ghost use Rattle.ff_net.specs.RuleTests.{is_node};
ghost use Rattle.ff_net.specs.Tree.{tree_of, trees_of};
ghost use Rattle.ff_steps.specs.NetUnits.{net_does};
ghost use Rattle.ff_steps.specs.PlanUnits.{opened_units, units_in, units_through, stage_unit, IsUnrun};

use crate::NetUnit;
use crate::copies::{add_farm, add_left_set, add_right_set};
use crate::kinds::{farm_deal, group_deal, group_merge};
use crate::making::{Making, add_unit};
use crate::middle::add_middle;
use crate::wraps::add_wrap;
use ff_net::laws::checked_networks_are_good;
use ff_net::{Checked, Net};
use ff_node::{Comb, Node};
use ff_rec::NoMemory;
use ff_unit::{Merge, Stage};
use std::alloc::Global;

/// The units of a network, in the order of its plan, each before its first step. A wrap may have `limit` tasks.
pub fn make_units<N: Node>(
    alloc: Global,
    checked: &Checked<N>,
    limit: u64,
    keep: bool,
) -> Result<Vec<NetUnit<N>>, NoMemory>
    ensures units { IfOk result (λ units. units.items
        ≡ opened_units N.does limit keep (tree_of checked.now.net)) }
    ensures unrun { IfOk result (λ units. All (IsUnrun (net_does N.does)) units.items) }
{
    checked_networks_are_good(checked);
    let mut units = Vec::new(alloc);
    let making = Making { alloc, limit, keep };
    add_units(making, checked.net(), &mut units)?;
    Ok(units)
}

/// Adds the units of a network to these.
#[cycle(units)]
#[tactic(auto, using(ff_net::proofs::NodeLists::node_lists))]
pub(crate) fn add_units<N: Node>(
    making: Making,
    net: &Net<N>,
    units: &mut Vec<NetUnit<N>>,
) -> Result<(), NoMemory>
    requires { Good N.does (tree_of net.now) }
    ensures { OnOk result (units.new.items
        ≡ units.old.items ++ units_in N.does making.limit making.keep (tree_of net.now)) }
{
    match net {
        Net::Leaf(_) | Net::Comb(_) => add_stage(making, net, units),
        Net::Pipe(parts) => add_parts(making, parts, units),
        Net::Farm {
            workers,
            sched,
            worker,
        } => {
            let deal = NetUnit::of_deal(farm_deal(*sched, *workers));
            let merge = NetUnit::of_merge(Merge::new(*workers));
            add_farm(making, deal, worker, *workers, merge, units)
        }
        Net::OFarm {
            workers,
            sched,
            worker,
        } => {
            let deal = NetUnit::of_odeal(group_deal(*sched, *workers));
            let merge = NetUnit::of_omerge(group_merge(*sched, *workers));
            add_farm(making, deal, worker, *workers, merge, units)
        }
        Net::A2a {
            left,
            left_node,
            route,
            right,
            right_node,
        } => {
            add_left_set(making, left_node, *left, units)?;
            add_middle(*left, *route, *right, units)?;
            add_right_set(making, right_node, *right, units)
        }
        Net::Wrap {
            workers,
            worker,
            test,
        } => add_wrap(making, *workers, worker, *test, units),
    }
}

// Adds those of several networks.
#[cycle(units)]
#[tactic(auto, using(ff_net::proofs::NodeLists::node_lists))]
fn add_parts<N: Node>(
    making: Making,
    parts: &[Net<N>],
    units: &mut Vec<NetUnit<N>>,
) -> Result<(), NoMemory>
    requires { GoodParts N.does (trees_of parts.now) }
    ensures { OnOk result (units.new.items
        ≡ units.old.items ++ units_through N.does making.limit making.keep (trees_of parts.now)) }
{
    for part in parts {
        add_units(making, part, units)?;
    }
    Ok(())
}

// Adds the stage of a leaf or of a comb.
fn add_stage<N: Node>(
    making: Making,
    net: &Net<N>,
    units: &mut Vec<NetUnit<N>>,
) -> Result<(), NoMemory>
    requires good { Good N.does (tree_of net.now) }
    requires node { is_node (tree_of net.now) ≡ true }
    ensures { OnOk result (units.new.items
        ≡ units.old.items ++ stage_unit N.does making.keep (tree_of net.now) ∷ []) }
{
    let nodes = net.nodes(making.alloc)?;
    let stage = Stage::new(making.alloc, Comb::new(nodes), making.keep);
    add_unit(NetUnit::of_stage(stage), units)
}
