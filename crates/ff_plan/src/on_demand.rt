// The outs on which units hand records out on demand.
ghost use Rattle.std.specs.Prelude.{◌≡◌};
ghost use Rattle.ff_plan.specs.Plans.{but_last, on_demand};

use crate::{UnitKind, UnitRow};

/// The outs on which a unit hands records out on demand: not that on which an ordered deal tells its picks.
pub(crate) fn on_demand(unit: &UnitRow) -> &[u32]
    ensures { result.now ≡ on_demand unit.now.kind unit.now.outs }
{
    match unit.kind {
        UnitKind::DealOd => unit.outs.as_slice(),
        UnitKind::ODealOd => but_last(unit.outs.as_slice()),
        UnitKind::Stage
        | UnitKind::DealRr
        | UnitKind::DealBy(_)
        | UnitKind::Merge
        | UnitKind::ODealRr
        | UnitKind::OMergeTurn
        | UnitKind::OMergePick
        | UnitKind::Master
        | UnitKind::Worker => &[],
    }
}

// All but the last.
fn but_last(edges: &[u32]) -> &[u32]
    ensures { result.now ≡ but_last edges.now }
{
    &edges[..edges.len().saturating_sub(1)]
}
