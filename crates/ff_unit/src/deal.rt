// A deal: records go to several outs.
mod behind;
mod held;
mod offer;
mod opened;
mod steps;
mod takes;

use crate::{Dealing, Unit, take_out};
pub use behind::Last;
use ff_port::{End, Ports, Step};
use ff_rec::Record;
pub use held::{Held, HeldPut};
use std::marker::Model;

/// A unit with one in that gives each record to one of several outs.
#[derive(Drop)]
pub struct Deal {
    way: Dealing,
    places: u32,
    // The place whose turn it is.
    turn: u32,
    // A record that may go to any place.
    free: Option<Record>,
    held: Held,
    // Whether the in still gives, and how the deal will end, as things stand.
    live: bool,
    end: End,
    done: bool,
    told: bool,
}

impl Model for Deal {
    ghost use Rattle.std.specs.Prelude.{◌≡◌, ◌≤◌, true, false};
    ghost use Rattle.ff_unit.specs.Deals.{DealState};

    ghost Value = { DealState };

    ghost view = { λ d. record {
      way = d.way;
      places = d.places;
      turn = d.turn;
      free = d.free;
      held = d.held;
      live = d.live;
      end = d.end;
      done = d.done;
      told = d.told;
    } };

    ghost invariant = { λ d. (d.places ≤ 64) × (d.done ≡ true → d.live ≡ false) };
}

impl Unit for Deal {
    ghost use Rattle.ff_unit.specs.DealLaws.{IsUnit-deal};
    ghost use Rattle.ff_unit.specs.Deals.{deal_does};

    ghost does = { deal_does };

    #[inline(always)]
    fn step_once<P: Ports<Record>>(&mut self, ports: &mut P) -> Step {
        match take_out(&mut self.free) {
            Some(r) => self.put_free(r, ports),
            None => match self.held.put_first(ports) {
                HeldPut::Nothing => self.go_on(ports),
                HeldPut::Done => Step::Moved,
                HeldPut::Full => Step::Waits,
                HeldPut::NoMemory => {
                    self.cut_off();
                    Step::Moved
                }
            },
        }
    }

    fn end_aborted(&mut self) {
        self.live = false;
        self.end = End::Abort;
        self.done = true;
        self.told = true;
    }

    fn take_kept(&mut self) -> Option<Record> {
        None
    }

    fn end(&self) -> Option<End> {
        if self.done { Some(self.end) } else { None }
    }

    fn rejected(&self) -> u64 {
        0
    }

    ghost sound = { IsUnit-deal };
}
