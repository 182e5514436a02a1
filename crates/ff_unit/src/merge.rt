// A merge: what comes at any of its ins goes on to its one out.
ghost use Rattle.std.specs.Prelude.{◌≡◌, ◌≤◌, [], ◌∷◌, replicate};
ghost use Rattle.ff_unit.specs.Closing.{decided, any_live};
ghost use Rattle.ff_unit.specs.Merges.{opened_merge, merge_does};
ghost use Rattle.ff_unit.specs.Units.{Ran};

mod steps;

use crate::{Flags, Unit, take_out};
use ff_port::{End, Ports, Put, Step};
use ff_rec::{Msg, Record};
use std::marker::Model;

/// A unit with up to 64 ins and one out. Of the ins that have something it takes from one after the other.
#[derive(Drop)]
pub struct Merge {
    live: Flags,
    // The in at which it looks first.
    next: usize,
    // What is to be put.
    held: Option<Msg<Record>>,
    end: End,
    done: bool,
    told: bool,
}

impl Model for Merge {
    ghost use Rattle.std.specs.Option.{option_to_list};
    ghost use Rattle.ff_unit.specs.Merges.{MergeState};

    ghost Value = { MergeState };

    ghost view = { λ m. record {
      live = m.live;
      held = option_to_list m.held;
      end = m.end;
      done = m.done;
      told = m.told;
    } };
}

impl Merge {
    /// A merge of so many ins.
    pub fn new(ins: u32) -> Merge
        requires some { 1 ≤ ins }
        requires few { ins ≤ 64 }
        ensures opened { result ≡ opened_merge ins }
        ensures ran { Ran merge_does result (replicate ins []) ([] ∷ []) }
    {
        Merge {
            live: Flags::all(ins as usize),
            next: 0,
            held: None,
            end: End::Eos,
            done: false,
            told: false,
        }
    }

    // How it will end, once no in gives any more.
    fn fin(&self) -> Option<End>
        ensures { result ≡ decided (any_live self.now.live) self.now.end }
    {
        if self.live.any() {
            None
        } else {
            Some(self.end)
        }
    }
}

impl Unit for Merge {
    ghost use Rattle.ff_unit.specs.MergeLaws.{IsUnit-merge};
    ghost use Rattle.ff_unit.specs.Merges.{merge_does};

    ghost does = { merge_does };

    #[inline(always)]
    fn step_once<P: Ports<Record>>(&mut self, ports: &mut P) -> Step {
        match take_out(&mut self.held) {
            None => self.go_on(ports),
            Some(m) => match ports.try_put(0, m) {
                Put::Done => Step::Moved,
                Put::Full(m) => {
                    self.held = Some(m);
                    Step::Waits
                }
                Put::NoMemory(_) => {
                    self.held = Some(Msg::Abort);
                    self.end = End::Memory;
                    Step::Moved
                }
            },
        }
    }

    fn end_aborted(&mut self) {
        self.live.close_all();
        self.end = End::Abort;
        self.done = true;
        self.told = true;
    }

    fn take_kept(&mut self) -> Option<Record> {
        None
    }

    fn end(&self) -> Option<End> {
        if self.done { self.fin() } else { None }
    }

    fn rejected(&self) -> u64 {
        0
    }

    ghost sound = { IsUnit-merge };
}
