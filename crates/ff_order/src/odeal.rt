// An ordered deal: each record goes to an out in a group of its own.
ghost use Rattle.std.specs.Prelude.{◌≡◌, ◌≤◌, suc, [], ◌∷◌, replicate};
ghost use Rattle.ff_unit.specs.Deals.{opened_deal, deal_does};
ghost use Rattle.ff_unit.specs.Units.{Ran};
ghost use Rattle.ff_unit.specs.declared.dealing.Dealing.TheVariants.{GroupsInTurn, GroupsOnDemand};

use ff_port::{End, Ports, Step};
use ff_rec::Record;
use ff_unit::{Deal, Unit};
use std::marker::Model;

/// A deal of an ordered farm.
#[derive(Drop)]
pub struct ODeal(Deal);

impl Model for ODeal {
    ghost use Rattle.ff_unit.specs.Deals.{DealState};

    ghost Value = { DealState };

    ghost view = { λ d. d.0 };
}

impl ODeal {
    /// Records go to the outs in turn.
    pub fn strict(outs: u32) -> ODeal
        requires some { 1 ≤ outs }
        requires few { outs ≤ 64 }
        ensures opened { result ≡ opened_deal GroupsInTurn outs }
        ensures ran { Ran deal_does result ([] ∷ []) (replicate outs []) }
    {
        ODeal(Deal::strict_groups(outs))
    }

    /// Each record goes to the first out that has room. One out more, the last, is told which that was.
    pub fn on_demand(outs: u32) -> ODeal
        requires some { 1 ≤ outs }
        requires few { outs ≤ 64 }
        ensures opened { result ≡ opened_deal GroupsOnDemand outs }
        ensures ran { Ran deal_does result ([] ∷ []) (replicate (suc outs) []) }
    {
        ODeal(Deal::groups_on_demand(outs))
    }
}

impl Unit for ODeal {
    ghost use Rattle.ff_unit.specs.DealLaws.{IsUnit-deal};
    ghost use Rattle.ff_unit.specs.Deals.{deal_does};

    ghost does = { deal_does };

    #[inline(always)]
    fn step_once<P: Ports<Record>>(&mut self, ports: &mut P) -> Step {
        self.0.step_once(ports)
    }

    fn end_aborted(&mut self) {
        self.0.end_aborted();
    }

    fn take_kept(&mut self) -> Option<Record> {
        self.0.take_kept()
    }

    fn end(&self) -> Option<End> {
        self.0.end()
    }

    fn rejected(&self) -> u64 {
        self.0.rejected()
    }

    ghost sound = { IsUnit-deal };
}
