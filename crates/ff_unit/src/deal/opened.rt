// How a deal begins.
ghost use Rattle.std.specs.Prelude.{◌≡◌, ◌≤◌, suc, [], ◌∷◌, replicate};
ghost use Rattle.ff_unit.specs.Deals.{opened_deal, deal_outs, deal_does};
ghost use Rattle.ff_unit.specs.Units.{Ran};

use super::Deal;
use super::held::Held;
use crate::Dealing;
use ff_port::End;

impl Deal {
    /// Records go to the outs in turn.
    pub fn strict(outs: u32) -> Deal
        requires some { 1 ≤ outs }
        requires few { outs ≤ 64 }
        ensures opened { result ≡ opened_deal Dealing.InTurn outs }
        ensures ran { Ran deal_does result ([] ∷ []) (replicate outs []) }
    {
        Deal::opened(Dealing::InTurn, outs)
    }

    /// Each record goes to the first out that has room.
    pub fn on_demand(outs: u32) -> Deal
        requires some { 1 ≤ outs }
        requires few { outs ≤ 64 }
        ensures opened { result ≡ opened_deal Dealing.OnDemand outs }
        ensures ran { Ran deal_does result ([] ∷ []) (replicate outs []) }
    {
        Deal::opened(Dealing::OnDemand, outs)
    }

    /// Records that hold the same in this field go to the same out, and those without the field to the first.
    pub fn by_key(field: u32, outs: u32) -> Deal
        requires some { 1 ≤ outs }
        requires few { outs ≤ 64 }
        ensures opened { result ≡ opened_deal (Dealing.ByKey field) outs }
        ensures ran { Ran deal_does result ([] ∷ []) (replicate outs []) }
    {
        Deal::opened(Dealing::ByKey(field), outs)
    }

    /// Records go to the outs in turn, each in a group of its own.
    pub fn strict_groups(outs: u32) -> Deal
        requires some { 1 ≤ outs }
        requires few { outs ≤ 64 }
        ensures opened { result ≡ opened_deal Dealing.GroupsInTurn outs }
        ensures ran { Ran deal_does result ([] ∷ []) (replicate outs []) }
    {
        Deal::opened(Dealing::GroupsInTurn, outs)
    }

    /// Each record goes to the first out that has room, in a group of its own. One out more is told which out that was.
    pub fn groups_on_demand(outs: u32) -> Deal
        requires some { 1 ≤ outs }
        requires few { outs ≤ 64 }
        ensures opened { result ≡ opened_deal Dealing.GroupsOnDemand outs }
        ensures ran { Ran deal_does result ([] ∷ []) (replicate (suc outs) []) }
    {
        Deal::opened(Dealing::GroupsOnDemand, outs)
    }

    // A deal that made no step.
    fn opened(way: Dealing, places: u32) -> Deal
        requires some { 1 ≤ places }
        requires few { places ≤ 64 }
        ensures opened { result ≡ opened_deal way places }
        ensures ran { Ran deal_does result ([] ∷ []) (replicate (deal_outs way places) []) }
    {
        Deal {
            way,
            places,
            turn: 0,
            free: None,
            held: Held::nothing(),
            live: true,
            end: End::Eos,
            done: false,
            told: false,
        }
    }
}
