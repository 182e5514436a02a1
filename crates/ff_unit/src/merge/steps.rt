// How a merge steps.
ghost use Rattle.std.specs.Prelude.{◌≡◌, [], true, false, length, slice_set};
ghost use Rattle.ff_rec.specs.declared.msg.Msg.TheVariants.{Abort};
ghost use Rattle.ff_unit.specs.Closing.{any_live, IsLive};
ghost use Rattle.ff_unit.specs.Merges.{merge_does, merge_takes, merge_closes, forwarded};
ghost use Rattle.ff_unit.specs.Units.{StepsOnce, StaysAt};

use super::Merge;
use crate::closing::{first_abort, last_eos, spoil};
use crate::take_any;
use ff_port::{End, Ports, Step};
use ff_rec::{Msg, Record};

impl Merge {
    /// A step while nothing is held.
    #[inline(always)]
    pub(super) fn go_on<P: Ports<Record>>(&mut self, ports: &mut P) -> Step
        requires held { self.old.held ≡ [] }
        requires ins { length (P.gots ports.old) ≡ length self.old.live }
        requires done { self.old.done ≡ true → any_live self.old.live ≡ false }
        ensures once { StepsOnce merge_does P.Ports self.old ports.old result self.new ports.new }
        ensures again { self.old.done ≡ true
            → StaysAt P.Ports self.old ports.old self.new ports.new }
    {
        if self.live.any() {
            self.take_one(ports)
        } else {
            self.finish(ports)
        }
    }

    // Takes from the first in that has something.
    #[inline(always)]
    fn take_one<P: Ports<Record>>(&mut self, ports: &mut P) -> Step
        requires held { self.old.held ≡ [] }
        requires live { any_live self.old.live ≡ true }
        requires ins { length (P.gots ports.old) ≡ length self.old.live }
        ensures { StepsOnce merge_does P.Ports self.old ports.old result self.new ports.new }
    {
        match take_any(&self.live, self.next, ports) {
            None => Step::Waits,
            Some((k, m)) => {
                self.next = k + 1;
                self.receive(k, m);
                Step::Moved
            }
        }
    }

    // A message comes at in `k`.
    #[inline(always)]
    fn receive(&mut self, k: usize, m: Msg<Record>)
        requires held { self.old.held ≡ [] }
        requires live { IsLive self.old.live k }
        ensures { self.new ≡ merge_takes self.old k m }
    {
        match m {
            Msg::Item(r) => self.forward(r),
            Msg::Mark => {}
            Msg::Pick(_) => {}
            Msg::Eos => self.close(k),
            Msg::Abort => self.cut(k),
        }
    }

    // A record goes on while all goes well.
    fn forward(&mut self, r: Record)
        requires { self.old.held ≡ [] }
        ensures { self.new ≡ record self.old { held = forwarded self.old.end r } }
    {
        match self.end {
            End::Eos => self.held = Some(Msg::Item(r)),
            End::Abort | End::Memory => {}
        }
    }

    // In `k` was cut off, which is told at once: the other ins may stay silent for long.
    fn cut(&mut self, k: usize)
        requires held { self.old.held ≡ [] }
        requires live { IsLive self.old.live k }
        ensures { self.new ≡ merge_takes self.old k Abort }
    {
        self.live.close(k);
        self.held = first_abort(self.end);
        self.end = spoil(self.end);
    }

    // In `k` gives no more. The last in to end is that of the merge.
    fn close(&mut self, k: usize)
        requires held { self.old.held ≡ [] }
        requires live { IsLive self.old.live k }
        ensures { self.new ≡ merge_closes (record self.old { live = slice_set self.old.live k false }) }
    {
        self.live.close(k);
        if !self.live.any() {
            self.held = last_eos(self.end);
        }
    }

    // Flushes the out, and ends once nothing waits there.
    fn finish<P: Ports<Record>>(&mut self, ports: &mut P) -> Step
        requires held { self.old.held ≡ [] }
        requires live { any_live self.old.live ≡ false }
        ensures once { StepsOnce merge_does P.Ports self.old ports.old result self.new ports.new }
        ensures again { self.old.done ≡ true
            → StaysAt P.Ports self.old ports.old self.new ports.new }
    {
        if self.done || ports.flush() {
            self.done = true;
            Step::Ended(self.end)
        } else {
            Step::Waits
        }
    }
}
