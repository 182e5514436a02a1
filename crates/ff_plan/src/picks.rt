// The deal and the merge of an ordered farm, and the edge between them on which the picks are told.
ghost use Rattle.std.specs.Prelude.{◌≡◌, ◌+◌, ◌≤◌, ◌<◌, ◌++◌, ◌∷◌, [], OnOk, IfOk};
ghost use Rattle.ff_net.specs.Counts.{pick_edges};
ghost use Rattle.ff_plan.specs.AlikeRows.{row_of};
ghost use Rattle.ff_plan.specs.Laying.{odeal_kind, omerge_kind};
ghost use Rattle.ff_plan.specs.Rows.{range};

use crate::UnitRow;
use crate::edge_numbers::{one, range};
use crate::kinds::{odeal_kind, omerge_kind, pick_edges};
use crate::units::add_unit;
use ff_net::{Path, Sched};
use ff_rec::NoMemory;
use std::alloc::Global;

/// Adds the deal of an ordered farm to the `count` edges from `first` on, and to that of its picks.
pub(crate) fn add_odeal(
    sched: Sched,
    from: u32,
    first: u32,
    count: u32,
    picks: u32,
    at: &Path,
    units: &mut Vec<UnitRow>,
) -> Result<(), NoMemory>
    requires outs { first + count ≤ 4096 }
    requires last { picks < 4096 }
    ensures { OnOk result (units.new.items ≡ units.old.items ++ row_of (odeal_kind sched)
        (from ∷ []) (range first count ++ range picks (pick_edges sched)) at.now ∷ []) }
{
    let alloc = *units.allocator();
    let outs = ports_with_picks(alloc, sched, first, count, picks)?;
    add_unit(odeal_kind(sched), one(alloc, from)?, outs, at, units)
}

/// Adds the merge of an ordered farm from the `count` edges from `first` on, and from that of its picks.
pub(crate) fn add_omerge(
    sched: Sched,
    first: u32,
    count: u32,
    picks: u32,
    to: u32,
    at: &Path,
    units: &mut Vec<UnitRow>,
) -> Result<(), NoMemory>
    requires ins { first + count ≤ 4096 }
    requires last { picks < 4096 }
    ensures { OnOk result (units.new.items ≡ units.old.items ++ row_of (omerge_kind sched)
        (range first count ++ range picks (pick_edges sched)) (to ∷ []) at.now ∷ []) }
{
    let alloc = *units.allocator();
    let ins = ports_with_picks(alloc, sched, first, count, picks)?;
    add_unit(omerge_kind(sched), ins, one(alloc, to)?, at, units)
}

// The `count` edges from `first` on, and that of the picks where there is one.
fn ports_with_picks(
    alloc: Global,
    sched: Sched,
    first: u32,
    count: u32,
    picks: u32,
) -> Result<Vec<u32>, NoMemory>
    requires ports { first + count ≤ 4096 }
    requires last { picks < 4096 }
    ensures { IfOk result (λ edges. edges.items ≡ range first count ++ range picks (pick_edges sched)) }
{
    let mut edges = range(alloc, first, count)?;
    let last = range(alloc, picks, pick_edges(sched))?;
    edges.extend_from_slice(&last)?;
    Ok(edges)
}
