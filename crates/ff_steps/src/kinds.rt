// The deals and merges of the forms of networks.
ghost use Rattle.std.specs.Prelude.{◌≡◌, ◌≤◌};
ghost use Rattle.ff_order.specs.OMerges.{opened_omerge};
ghost use Rattle.ff_steps.specs.PlanUnits.{dealing, group_dealing, group_order, route_dealing};
ghost use Rattle.ff_unit.specs.Deals.{opened_deal};

use ff_net::{Route, Sched};
use ff_order::{ODeal, OMerge};
use ff_unit::Deal;

/// The deal of a farm.
pub(crate) fn farm_deal(sched: Sched, workers: u32) -> Deal
    requires some { 1 ≤ workers }
    requires few { workers ≤ 64 }
    ensures { result ≡ opened_deal (dealing sched) workers }
{
    match sched {
        Sched::Rr => Deal::strict(workers),
        Sched::Od => Deal::on_demand(workers),
    }
}

/// The deal of an ordered farm.
pub(crate) fn group_deal(sched: Sched, workers: u32) -> ODeal
    requires some { 1 ≤ workers }
    requires few { workers ≤ 64 }
    ensures { result ≡ opened_deal (group_dealing sched) workers }
{
    match sched {
        Sched::Rr => ODeal::strict(workers),
        Sched::Od => ODeal::on_demand(workers),
    }
}

/// The merge of an ordered farm.
pub(crate) fn group_merge(sched: Sched, workers: u32) -> OMerge
    requires some { 1 ≤ workers }
    requires few { workers ≤ 64 }
    ensures { result ≡ opened_omerge (group_order sched) workers }
{
    match sched {
        Sched::Rr => OMerge::in_turn(workers),
        Sched::Od => OMerge::by_pick(workers),
    }
}

/// A deal in the middle of an all-to-all.
pub(crate) fn route_deal(route: Route, outs: u32) -> Deal
    requires some { 1 ≤ outs }
    requires few { outs ≤ 64 }
    ensures { result ≡ opened_deal (route_dealing route) outs }
{
    match route {
        Route::Rr => Deal::strict(outs),
        Route::Od => Deal::on_demand(outs),
        Route::By(field) => Deal::by_key(field, outs),
    }
}
