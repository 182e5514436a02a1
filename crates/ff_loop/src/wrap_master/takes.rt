// What a master does with the messages that it takes.
ghost use Rattle.std.specs.Prelude.{◌≡◌, ◌⊎◌, ◌<◌, [], suc, false, slice_set};
ghost use Rattle.ff_node.specs.Sends.{nothing_sent};
ghost use Rattle.ff_unit.specs.Closing.{IsLive};
ghost use Rattle.ff_unit.specs.declared.mode.Mode.TheVariants.{Live};
ghost use Rattle.ff_loop.specs.Rounds.{workers_of};
ghost use Rattle.ff_loop.specs.WrapMasters.{IsSized, OwesOnly, IsAnswered, WrapTakes, WorkingTakes};
ghost use Rattle.ff_loop.specs.WrapMasters.{shut_takes, cut_takes, cut_off, spoils, to_ends};

use super::WrapMaster;
use ff_node::Sends;
use ff_port::End;
use ff_rec::{Msg, Record};
use ff_unit::{Held, Last, Mode};
use std::mem;

impl WrapMaster {
    /// A message of in `k`, while nothing is held.
    pub(super) fn receive(&mut self, k: usize, m: Msg<Record>)
        requires sized { IsSized self.old }
        requires within { k < suc (workers_of self.old.round) }
        requires live { IsLive self.old.live k }
        requires owes { self.old.mode ≡ Live → OwesOnly self.old }
        ensures { WrapTakes self.old.mode self.old k m self.new }
    {
        match self.mode {
            Mode::Live if k == 0 => self.receive_task(m),
            Mode::Live => self.receive_answer(k - 1, m),
            Mode::Shut => self.receive_shut(k, m),
            Mode::Cut => self.receive_cut(k, m),
        }
    }

    // A message of in 0, while it works.
    fn receive_task(&mut self, m: Msg<Record>)
        requires { IsSized self.old }
        ensures { WorkingTakes self.old 0 m self.new }
    {
        match m {
            Msg::Item(r) => match self.work.feed(r) {
                Ok(over) => self.over = over,
                Err(_) => self.cut_off(End::Memory),
            },
            Msg::Mark => {}
            Msg::Pick(_) => {}
            Msg::Eos => self.live.close(0),
            Msg::Abort => self.spoil(0, End::Abort),
        }
    }

    // A message of a worker that has a task, while it works. A worker that ends leaves its task undone.
    fn receive_answer(&mut self, w: usize, m: Msg<Record>)
        requires sized { IsSized self.old }
        requires within { w < workers_of self.old.round }
        requires live { IsLive self.old.live (suc w) }
        requires owes { OwesOnly self.old }
        ensures { WorkingTakes self.old (suc w) m self.new }
    {
        match m {
            Msg::Item(r) => {
                if self.parts[w].send(r).is_err() {
                    self.cut_off(End::Memory);
                }
            }
            Msg::Mark => self.end_answer(w),
            Msg::Pick(_) => {}
            Msg::Eos => self.spoil(w + 1, End::Memory),
            Msg::Abort => self.spoil(w + 1, End::Abort),
        }
    }

    // The answer of a worker is whole.
    fn end_answer(&mut self, w: usize)
        requires sized { IsSized self.old }
        requires within { w < workers_of self.old.round }
        requires live { IsLive self.old.live (suc w) }
        requires owes { OwesOnly self.old }
        ensures { IsAnswered self.old w self.new
            ⊎ (self.new ≡ cut_off (record self.old { parts = slice_set self.old.parts w (nothing_sent false) }) End.Memory) }
    {
        let answer = mem::replace(&mut self.parts[w], Sends::new(self.alloc, false));
        match self.work.got(w as u32, answer) {
            Ok(over) => {
                self.over = over;
                self.live.close(w + 1);
            }
            Err(_) => self.cut_off(End::Memory),
        }
    }

    // A message while it reads its ins to their ends.
    fn receive_shut(&mut self, k: usize, m: Msg<Record>)
        requires sized { IsSized self.old }
        requires within { k < suc (workers_of self.old.round) }
        ensures { self.new ≡ shut_takes self.old k m }
    {
        match m {
            Msg::Item(_) => {}
            Msg::Mark => {}
            Msg::Pick(_) => {}
            Msg::Eos => {
                self.live.close(k);
                if !self.live.any() {
                    self.held = Held::one((self.workers(), Msg::Eos));
                }
            }
            Msg::Abort => {
                self.live.close(k);
                self.held = Held::one((self.workers(), Msg::Abort));
                self.mode = Mode::Cut;
                self.end = End::Abort;
            }
        }
    }

    // A message behind a cut.
    fn receive_cut(&mut self, k: usize, m: Msg<Record>)
        requires sized { IsSized self.old }
        requires within { k < suc (workers_of self.old.round) }
        ensures { self.new ≡ cut_takes self.old k m }
    {
        match m {
            Msg::Item(_) => {}
            Msg::Mark => {}
            Msg::Pick(_) => {}
            Msg::Eos => self.live.close(k),
            Msg::Abort => self.live.close(k),
        }
    }

    // In `k` ended as it should not.
    fn spoil(&mut self, k: usize, end: End)
        requires sized { IsSized self.old }
        requires within { k < suc (workers_of self.old.round) }
        ensures { self.new ≡ spoils self.old k end }
    {
        self.cut_off(end);
        self.live.close(k);
    }

    /// Abort is told on every out, and each in is read to its end.
    pub(super) fn cut_off(&mut self, end: End)
        requires { IsSized self.old }
        ensures { self.new ≡ cut_off self.old end }
    {
        let goes_on = self.live.is_live(0);
        self.live.open_all();
        if !goes_on {
            self.live.close(0);
        }
        self.held = Held::on_all(self.workers() + 1, Last::Abort);
        self.mode = Mode::Cut;
        self.end = end;
    }

    /// How many workers there are.
    pub(super) fn workers(&self) -> u32
        requires { IsSized self.now }
        ensures { result ≡ workers_of self.now.round }
    {
        self.parts.len() as u32
    }
}
