// What an ordered merge does with the messages that it takes.
ghost use Rattle.std.specs.Prelude.{◌≡◌, ◌<◌, [], length, slice_set, false};
ghost use Rattle.ff_order.specs.OMerges.{omerge_takes, omerge_gets, omerge_ended, omerge_spoiled, omerge_closes, omerge_cuts, gets_group, gets_pick, next_due, omerge_ins};

use super::OMerge;
use crate::Order;
use ff_port::End;
use ff_rec::{Msg, Record};
use ff_unit::Mode;

impl OMerge {
    /// A message of in `k`, while nothing is held.
    #[inline(always)]
    pub(super) fn receive(&mut self, k: usize, m: Msg<Record>)
        requires held { self.old.held ≡ [] }
        requires within { k < length self.old.live }
        ensures { self.new ≡ omerge_takes self.old k m }
    {
        match m {
            Msg::Eos => {
                self.live.close(k);
                self.receive_end();
            }
            Msg::Abort => {
                self.live.close(k);
                self.receive_abort();
            }
            m => self.receive_more(m),
        }
    }

    // An in has ended.
    fn receive_end(&mut self)
        requires { self.old.held ≡ [] }
        ensures { self.new ≡ omerge_ended self.old.mode self.old }
    {
        match self.mode {
            Mode::Live | Mode::Shut => {
                self.mode = Mode::Shut;
                if !self.live.any() {
                    self.held = Some(Msg::Eos);
                }
            }
            Mode::Cut => {}
        }
    }

    // An in was cut off.
    fn receive_abort(&mut self)
        requires { self.old.held ≡ [] }
        ensures { self.new ≡ omerge_spoiled self.old.mode self.old }
    {
        match self.mode {
            Mode::Live | Mode::Shut => {
                self.held = Some(Msg::Abort);
                self.mode = Mode::Cut;
                self.end = End::Abort;
            }
            Mode::Cut => {}
        }
    }

    // A message that isn't the last of its in. Behind the last group, or behind a cut, it is dropped.
    #[inline(always)]
    fn receive_more(&mut self, m: Msg<Record>)
        requires { self.old.held ≡ [] }
        ensures { self.new ≡ omerge_gets self.old.mode self.old m }
    {
        match self.mode {
            Mode::Live if self.due < self.places => self.receive_group(m),
            Mode::Live => self.receive_pick(m),
            Mode::Shut | Mode::Cut => {}
        }
    }

    // A message of the group that is due.
    #[inline(always)]
    fn receive_group(&mut self, m: Msg<Record>)
        requires held { self.old.held ≡ [] }
        requires within { self.old.due < self.old.places }
        ensures { self.new ≡ gets_group self.old m }
    {
        match m {
            Msg::Item(r) => self.held = Some(Msg::Item(r)),
            Msg::Mark => self.due = next_due(self.order, self.places, self.due),
            Msg::Pick(_) | Msg::Eos | Msg::Abort => {}
        }
    }

    // A message of the in of the picks. A pick that names no in is dropped.
    fn receive_pick(&mut self, m: Msg<Record>)
        ensures { self.new ≡ gets_pick self.old m }
    {
        if let Msg::Pick(w) = m {
            let w = w as usize;
            if w < self.places {
                self.due = w;
            }
        }
    }
}

// The in that is due behind a group of place `w`: the next place, or the in of the picks.
fn next_due(order: Order, places: usize, w: usize) -> usize
    requires { w < places }
    ensures { result ≡ next_due order places w }
{
    match order {
        Order::InTurn if w + 1 == places => 0,
        Order::InTurn => w + 1,
        Order::ByPick => places,
    }
}
