// How a deal steps.
ghost use Rattle.std.specs.Prelude.{◌≡◌, ◌<◌, [], true, false, Some, None, length, ℕ};
ghost use Rattle.ff_rec.specs.Streams.{IsOpen, at};
ghost use Rattle.ff_unit.specs.Deals.{deal_does, deal_outs};
ghost use Rattle.ff_unit.specs.Units.{StepsOnce, StaysAt};

use super::Deal;
use super::offer::{Offer, put_anywhere};
use ff_port::{Ports, Step};
use ff_rec::{Msg, Record};

impl Deal {
    /// A step while nothing is held.
    #[inline(always)]
    pub(super) fn go_on<P: Ports<Record>>(&mut self, ports: &mut P) -> Step
        requires free { self.old.free ≡ None }
        requires held { self.old.held ≡ [] }
        requires one_in { length (P.gots ports.old) ≡ 1 }
        requires turn { self.old.turn < self.old.places }
        requires done { self.old.done ≡ true → self.old.live ≡ false }
        ensures once { StepsOnce deal_does P.Ports self.old ports.old result self.new ports.new }
        ensures again { self.old.done ≡ true
            → StaysAt P.Ports self.old ports.old self.new ports.new }
    {
        if self.live {
            self.take_one(ports)
        } else if self.done {
            Step::Ended(self.end)
        } else {
            self.finish(ports)
        }
    }

    // Takes from the in.
    #[inline(always)]
    fn take_one<P: Ports<Record>>(&mut self, ports: &mut P) -> Step
        requires free { self.old.free ≡ None }
        requires held { self.old.held ≡ [] }
        requires live { self.old.live ≡ true }
        requires one_in { length (P.gots ports.old) ≡ 1 }
        requires turn { self.old.turn < self.old.places }
        ensures { StepsOnce deal_does P.Ports self.old ports.old result self.new ports.new }
    {
        match ports.try_take(0) {
            None => Step::Waits,
            Some(m) => {
                self.receive(m);
                Step::Moved
            }
        }
    }

    // Flushes the outs, and ends once nothing waits there.
    fn finish<P: Ports<Record>>(&mut self, ports: &mut P) -> Step
        requires free { self.old.free ≡ None }
        requires held { self.old.held ≡ [] }
        requires ended { self.old.live ≡ false }
        requires goes_on { self.old.done ≡ false }
        ensures { StepsOnce deal_does P.Ports self.old ports.old result self.new ports.new }
    {
        if ports.flush() {
            self.done = true;
            Step::Ended(self.end)
        } else {
            Step::Waits
        }
    }

    /// Puts a record that was free at the first place with room.
    pub(super) fn put_free<P: Ports<Record>>(&mut self, r: Record, ports: &mut P) -> Step
        requires free { self.old.free ≡ None }
        requires outs { length (P.puts ports.old) ≡ deal_outs self.old.way self.old.places }
        requires open { (w : ℕ) → w < self.old.places → IsOpen (at (P.puts ports.old) w) }
        requires goes_on { self.old.done ≡ false }
        ensures { StepsOnce deal_does P.Ports (record self.old { free = Some r }) ports.old
            result self.new ports.new }
    {
        match put_anywhere(ports, self.places, r) {
            Offer::Done(place) => {
                self.hold_behind(place);
                Step::Moved
            }
            Offer::Full(m) => {
                if let Msg::Item(r) = m {
                    self.free = Some(r);
                }
                Step::Waits
            }
            Offer::NoMemory => {
                self.cut_off();
                Step::Moved
            }
        }
    }
}
