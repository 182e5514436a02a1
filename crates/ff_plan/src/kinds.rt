// The kinds of units that hand records out and bring them together.
ghost use Rattle.std.specs.Prelude.{◌≡◌};
ghost use Rattle.ff_net.specs.Counts.{pick_edges};
ghost use Rattle.ff_plan.specs.Laying.{deal_kind, odeal_kind, omerge_kind, route_kind};

use crate::UnitKind;
use ff_net::{Route, Sched};

/// The deal of a farm.
pub(crate) fn deal_kind(sched: Sched) -> UnitKind
    ensures { result ≡ deal_kind sched }
{
    match sched {
        Sched::Rr => UnitKind::DealRr,
        Sched::Od => UnitKind::DealOd,
    }
}

/// The deal of an ordered farm.
pub(crate) fn odeal_kind(sched: Sched) -> UnitKind
    ensures { result ≡ odeal_kind sched }
{
    match sched {
        Sched::Rr => UnitKind::ODealRr,
        Sched::Od => UnitKind::ODealOd,
    }
}

/// The merge of an ordered farm.
pub(crate) fn omerge_kind(sched: Sched) -> UnitKind
    ensures { result ≡ omerge_kind sched }
{
    match sched {
        Sched::Rr => UnitKind::OMergeTurn,
        Sched::Od => UnitKind::OMergePick,
    }
}

/// The deals in the middle of an all-to-all.
pub(crate) fn route_kind(route: Route) -> UnitKind
    ensures { result ≡ route_kind route }
{
    match route {
        Route::Rr => UnitKind::DealRr,
        Route::Od => UnitKind::DealOd,
        Route::By(field) => UnitKind::DealBy(field),
    }
}

/// How many edges the picks of an ordered farm take.
pub(crate) fn pick_edges(sched: Sched) -> u32
    ensures { result ≡ pick_edges sched }
{
    match sched {
        Sched::Rr => 0,
        Sched::Od => 1,
    }
}
