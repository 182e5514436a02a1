// The tasks of a wrap, which stay as they were where memory is refused.
ghost use Rattle.std.specs.Prelude.{◌≡◌, ◌<◌, ◌∷◌, length, IfOk, OnOk, OnErr};
ghost use Rattle.ff_net.specs.Logs.{Fed, Got, given_to, got_from};
ghost use Rattle.ff_loop.specs.Rounds.{workers_of, log_of, taken_of, IsRound, GoesRound, GivesTask, TakesOut};
ghost use Rattle.ff_loop.specs.WrapMasters.{opened_round, is_past};
ghost use Rattle.ff_loop.specs.Works.{round_of};

use crate::Rounds;
use ff_net::Test;
use ff_node::Sends;
use ff_rec::{NoMemory, Record};
use std::alloc::Global;
use std::snapshot::Snapshot;

/// The tasks, or, once memory was refused, what had been done before. From then on every call is refused.
#[derive(Drop)]
pub(crate) enum Work {
    On(Rounds),
    Off(Snapshot<Rounds>),
}

impl Work {
    /// No task yet, for so many workers. There may be at most `limit` tasks.
    pub(crate) fn new(alloc: Global, test: Test, limit: u64, workers: u32) -> Result<Work, NoMemory>
        ensures { IfOk result (λ w. round_of w ≡ opened_round test limit workers) }
    {
        Ok(Work::On(Rounds::new(alloc, test, limit, workers)?))
    }

    /// Feeds a task in, and answers whether there are more than the limit allows.
    pub(crate) fn feed(&mut self, t: Record) -> Result<bool, NoMemory>
        requires { IsRound (round_of self.old) }
        ensures fed { OnOk result (GoesRound (round_of self.old) (round_of self.new)
            (Fed t ∷ log_of (round_of self.old)) (taken_of (round_of self.old))) }
        ensures over { IfOk result (λ over. over ≡ is_past (round_of self.new)) }
        ensures err { OnErr result (round_of self.new ≡ round_of self.old) }
    {
        let Work::On(rounds) = self else {
            return Err(NoMemory);
        };
        let before = Snapshot::of(rounds);
        if rounds.feed(t).is_ok() {
            return Ok(rounds.is_over());
        }
        *self = Work::Off(before);
        Err(NoMemory)
    }

    /// The next task, for worker `w`. `None` comes exactly where none may be given.
    pub(crate) fn give(&mut self, w: u32) -> Result<Option<Record>, NoMemory>
        requires round { IsRound (round_of self.old) }
        requires worker { w < workers_of (round_of self.old) }
        ensures ok { IfOk result (λ t. GivesTask w (round_of self.old) t (round_of self.new)) }
        ensures err { OnErr result (round_of self.new ≡ round_of self.old) }
    {
        let Work::On(rounds) = self else {
            return Err(NoMemory);
        };
        let before = Snapshot::of(rounds);
        if let Ok(task) = rounds.give(w) {
            return Ok(task);
        }
        *self = Work::Off(before);
        Err(NoMemory)
    }

    /// What worker `w` sent for its task; and answers whether there are more tasks than the limit allows.
    pub(crate) fn got(&mut self, w: u32, answer: Sends) -> Result<bool, NoMemory>
        requires round { IsRound (round_of self.old) }
        requires worker { w < workers_of (round_of self.old) }
        requires owed { length (got_from w (log_of (round_of self.old)))
            < length (given_to w (log_of (round_of self.old))) }
        ensures got { OnOk result (GoesRound (round_of self.old) (round_of self.new)
            (Got w answer.sends ∷ log_of (round_of self.old)) (taken_of (round_of self.old))) }
        ensures over { IfOk result (λ over. over ≡ is_past (round_of self.new)) }
        ensures err { OnErr result (round_of self.new ≡ round_of self.old) }
    {
        let Work::On(rounds) = self else {
            return Err(NoMemory);
        };
        let before = Snapshot::of(rounds);
        if rounds.got(w, answer).is_ok() {
            return Ok(rounds.is_over());
        }
        *self = Work::Off(before);
        Err(NoMemory)
    }

    /// The first result that is held, which is taken out.
    pub(crate) fn take_result(&mut self) -> Result<Option<Record>, NoMemory>
        requires { IsRound (round_of self.old) }
        ensures ok { IfOk result (λ r. TakesOut (round_of self.old) r (round_of self.new)) }
        ensures err { OnErr result (round_of self.new ≡ round_of self.old) }
    {
        let Work::On(rounds) = self else {
            return Err(NoMemory);
        };
        Ok(rounds.take_result())
    }
}
