// What a master holds next.
ghost use Rattle.std.specs.Prelude.{◌≡◌, ◌⊎◌, ◌<◌, ◌≤◌, [], suc, true, false, length, slice_index_or, IfSome, None, OnOk, OnErr};
ghost use Rattle.ff_unit.specs.Closing.{any_live};
ghost use Rattle.ff_unit.specs.declared.mode.Mode.TheVariants.{Live};
ghost use Rattle.ff_loop.specs.Rounds.{workers_of, results_of, NoneToGive};
ghost use Rattle.ff_loop.specs.WrapMasters.{IsSized, Pulls, GoesNext, FindsNext, KeepsRound, SendsNext, TellsWorkers, ReadsOn};

use super::WrapMaster;
use ff_port::End;
use ff_rec::{Msg, NoMemory};
use ff_unit::{Flags, Held, Last, Mode};

impl WrapMaster {
    /// Goes on to what is to be put next, where it works and holds nothing.
    pub(super) fn pull(&mut self)
        requires { IsSized self.old }
        ensures { Pulls self.old.mode self.old.held self.old self.new }
    {
        if let Mode::Live = self.mode {
            if self.held.is_empty() {
                self.go_next();
            }
        }
    }

    fn go_next(&mut self)
        requires sized { IsSized self.old }
        requires mode { self.old.mode ≡ Live }
        requires held { self.old.held ≡ [] }
        ensures { GoesNext self.old self.new }
    {
        if self.find_next().is_err() {
            self.cut_off(End::Memory);
        }
    }

    // A task for a worker that has none, a result, or the end, in this order.
    fn find_next(&mut self) -> Result<(), NoMemory>
        requires sized { IsSized self.old }
        requires mode { self.old.mode ≡ Live }
        requires held { self.old.held ≡ [] }
        ensures ok { OnOk result (FindsNext self.old self.new) }
        ensures err { OnErr result (KeepsRound self.old self.new) }
    {
        match free_worker(&self.live) {
            Some(w) => self.give_or_send(w),
            None => self.send_or_tell(),
        }
    }

    fn give_or_send(&mut self, w: u32) -> Result<(), NoMemory>
        requires sized { IsSized self.old }
        requires mode { self.old.mode ≡ Live }
        requires held { self.old.held ≡ [] }
        requires worker { w < workers_of self.old.round }
        requires free { slice_index_or self.old.live (suc w) true ≡ false }
        ensures ok { OnOk result (FindsNext self.old self.new) }
        ensures err { OnErr result (KeepsRound self.old self.new) }
    {
        match self.work.give(w)? {
            Some(t) => {
                self.live.open(w as usize + 1);
                self.held = Held::one((w, Msg::Item(t)));
                Ok(())
            }
            None => self.send_or_tell(),
        }
    }

    // A result, or the end where nothing is to be read.
    fn send_or_tell(&mut self) -> Result<(), NoMemory>
        requires sized { IsSized self.old }
        requires mode { self.old.mode ≡ Live }
        requires held { self.old.held ≡ [] }
        requires none_left { any_live self.old.live ≡ false → NoneToGive self.old.round }
        ensures ok { OnOk result (SendsNext self.old self.new ⊎ TellsWorkers self.old self.new ⊎ ReadsOn self.old self.new) }
        ensures err { OnErr result (self.new ≡ self.old) }
    {
        match self.work.take_result()? {
            Some(r) => self.held = Held::one((self.workers(), Msg::Item(r))),
            None => self.read_or_tell(),
        }
        Ok(())
    }

    // All was done where nothing is to be read.
    fn read_or_tell(&mut self)
        requires sized { IsSized self.old }
        requires mode { self.old.mode ≡ Live }
        requires held { self.old.held ≡ [] }
        requires none_left { any_live self.old.live ≡ false → NoneToGive self.old.round }
        requires no_result { results_of self.old.round ≡ [] }
        ensures { TellsWorkers self.old self.new ⊎ ReadsOn self.old self.new }
    {
        if self.live.any() {
            return;
        }
        self.live.open_all();
        self.live.close(0);
        self.held = Held::on_all(self.workers(), Last::Eos);
        self.mode = Mode::Shut;
    }
}

// The first worker that has no task.
fn free_worker(live: &Flags) -> Option<u32>
    requires some { 2 ≤ length live.now }
    ensures some { IfSome result (λ w. suc w < length live.now) }
    ensures free { IfSome result (λ w. slice_index_or live.now (suc w) true ≡ false) }
    ensures none { result ≡ None → any_live live.now ≡ true }
{
    for k in 1..live.len() {
        if !live.is_live(k) {
            return Some(k as u32 - 1);
        }
    }
    None
}
