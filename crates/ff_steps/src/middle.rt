// The units in the middle of an all-to-all.
ghost use Rattle.std.specs.Prelude.{◌≡◌, ◌≤◌, ◌++◌, [], ◌∷◌, OnOk};
ghost use Rattle.ff_steps.specs.NetUnits.{AsDeal, AsMerge};
ghost use Rattle.ff_steps.specs.PlanUnits.{times, route_dealing};
ghost use Rattle.ff_unit.specs.Deals.{opened_deal};
ghost use Rattle.ff_unit.specs.Merges.{opened_merge};

use crate::NetUnit;
use crate::kinds::route_deal;
use ff_net::Route;
use ff_node::Node;
use ff_rec::NoMemory;
use ff_unit::Merge;

/// Adds the units between the sets of an all-to-all: a deal for each node of the left one, and a merge for each of the right one.
pub(crate) fn add_middle<N: Node>(
    left: u32,
    route: Route,
    right: u32,
    units: &mut Vec<NetUnit<N>>,
) -> Result<(), NoMemory>
    requires some { (1 ≤ left) × (1 ≤ right) }
    requires few { (left ≤ 64) × (right ≤ 64) }
    ensures { OnOk result (units.new.items ≡ units.old.items
        ++ (times left (AsDeal (opened_deal (route_dealing route) right) ∷ [])
        ++ times right (AsMerge (opened_merge left) ∷ []))) }
{
    add_deals(left, route, right, units)?;
    add_merges(right, left, units)
}

// Adds so many deals with so many outs.
fn add_deals<N: Node>(
    count: u32,
    route: Route,
    outs: u32,
    units: &mut Vec<NetUnit<N>>,
) -> Result<(), NoMemory>
    requires some { 1 ≤ outs }
    requires few { outs ≤ 64 }
    ensures { OnOk result (units.new.items ≡ units.old.items
        ++ times count (AsDeal (opened_deal (route_dealing route) outs) ∷ [])) }
{
    for _ in 0..count {
        units.push(NetUnit::of_deal(route_deal(route, outs)))?;
    }
    Ok(())
}

// Adds so many merges with so many ins.
fn add_merges<N: Node>(count: u32, ins: u32, units: &mut Vec<NetUnit<N>>) -> Result<(), NoMemory>
    requires some { 1 ≤ ins }
    requires few { ins ≤ 64 }
    ensures { OnOk result (units.new.items ≡ units.old.items
        ++ times count (AsMerge (opened_merge ins) ∷ [])) }
{
    for _ in 0..count {
        units.push(NetUnit::of_merge(Merge::new(ins)))?;
    }
    Ok(())
}
