// An ordered merge: it joins the groups of its ins.
ghost use Rattle.std.specs.Prelude.{◌≡◌, ◌≤◌, [], ◌∷◌, replicate, suc};
ghost use Rattle.ff_unit.specs.Units.{Ran};
ghost use Rattle.ff_order.specs.OMerges.{opened_omerge, omerge_ins, omerge_does};

mod steps;
mod takes;

use crate::Order;
use ff_port::{End, Ports, Put, Step};
use ff_rec::{Msg, Record};
use ff_unit::{Flags, Mode, Unit, take_out};
use std::marker::Model;

/// A unit that takes a group from the in that is due, up to its Mark, and puts its records at its one out. It takes no memory.
#[derive(Drop)]
pub struct OMerge {
    order: Order,
    places: usize,
    due: usize,
    live: Flags,
    held: Option<Msg<Record>>,
    mode: Mode,
    end: End,
    done: bool,
    told: bool,
}

impl Model for OMerge {
    ghost use Rattle.std.specs.Option.{option_to_list};
    ghost use Rattle.ff_order.specs.OMerges.{OMergeState};

    ghost Value = { OMergeState };

    ghost view = { λ s. record {
      order = s.order;
      places = s.places;
      due = s.due;
      live = s.live;
      held = option_to_list s.held;
      mode = s.mode;
      end = s.end;
      done = s.done;
      told = s.told;
    } };
}

impl OMerge {
    /// A merge that takes a group from each of its ins in turn, from in 0 on.
    pub fn in_turn(ins: u32) -> OMerge
        requires some { 1 ≤ ins }
        requires few { ins ≤ 64 }
        ensures opened { result ≡ opened_omerge Order.InTurn ins }
        ensures ran { Ran omerge_does result
            (replicate (omerge_ins Order.InTurn ins) []) ([] ∷ []) }
    {
        let places = ins as usize;
        OMerge {
            order: Order::InTurn,
            places,
            due: 0,
            live: Flags::all(places),
            held: None,
            mode: Mode::Live,
            end: End::Eos,
            done: false,
            told: false,
        }
    }

    /// A merge that takes a group from one of `ins` ins for each Pick of one more in, its last.
    pub fn by_pick(ins: u32) -> OMerge
        requires some { 1 ≤ ins }
        requires few { ins ≤ 64 }
        ensures opened { result ≡ opened_omerge Order.ByPick ins }
        ensures ran { Ran omerge_does result
            (replicate (omerge_ins Order.ByPick ins) []) ([] ∷ []) }
    {
        let places = ins as usize;
        OMerge {
            order: Order::ByPick,
            places,
            due: places,
            live: Flags::all(places + 1),
            held: None,
            mode: Mode::Live,
            end: End::Eos,
            done: false,
            told: false,
        }
    }
}

impl Unit for OMerge {
    ghost use Rattle.ff_order.specs.OMergeLaws.{IsUnit-omerge};
    ghost use Rattle.ff_order.specs.OMerges.{omerge_does};

    ghost does = { omerge_does };

    #[inline(always)]
    fn step_once<P: Ports<Record>>(&mut self, ports: &mut P) -> Step {
        match take_out(&mut self.held) {
            None => self.go_on(ports),
            Some(m) => match ports.try_put(0, m) {
                Put::Done => Step::Moved,
                Put::Full(m) => {
                    self.held = Some(m);
                    Step::Waits
                }
                Put::NoMemory(_) => {
                    self.held = Some(Msg::Abort);
                    self.mode = Mode::Cut;
                    self.end = End::Memory;
                    Step::Moved
                }
            },
        }
    }

    fn end_aborted(&mut self) {
        self.live.close_all();
        self.mode = Mode::Cut;
        self.end = End::Abort;
        self.done = true;
        self.told = true;
    }

    fn take_kept(&mut self) -> Option<Record> {
        None
    }

    fn end(&self) -> Option<End> {
        if self.done && !self.live.any() {
            Some(self.end)
        } else {
            None
        }
    }

    fn rejected(&self) -> u64 {
        0
    }

    ghost sound = { IsUnit-omerge };
}
