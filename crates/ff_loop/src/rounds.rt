// The tasks of a wrap, from those that are fed in to the last of those that they spawn.
ghost use Rattle.std.specs.Prelude.{◌≡◌, ◌+◌, ◌<◌, ◌↔◌, ◌∷◌, length, IsTrue, IfOk, OnOk};
ghost use Rattle.ff_net.specs.Logs.{Fed, Got, given_to, got_from, IsDone, IsOverLimit as IsPastLimit};
ghost use Rattle.ff_loop.specs.Masters.{opened_master};
ghost use Rattle.ff_loop.specs.Worklists.{opened_work};
ghost use Rattle.ff_loop.specs.Rounds.{test_of, limit_of, workers_of, log_of, taken_of};
ghost use Rattle.ff_loop.specs.Rounds.{IsRound, GoesRound, IsOpened, GivesTask, TakesOut};

use crate::{Master, Worklist};
use ff_net::Test;
use ff_node::Sends;
use ff_rec::{NoMemory, Record};
use std::alloc::Global;
use std::marker::Model;

/// What the workers of a wrap are to do and did: a master over the tasks, with its log as networks speak of it. After
/// `NoMemory` it is given up.
#[derive(Drop)]
pub struct Rounds {
    master: Master<Record, Sends, Worklist>,
}

impl Model for Rounds {
    ghost use Rattle.ff_loop.specs.Rounds.{RoundState};

    ghost Value = { RoundState };

    ghost view = { λ r. r.master };
}

impl Rounds {
    /// No task yet, for so many workers. There may be at most `limit` tasks.
    pub fn new(alloc: Global, test: Test, limit: u64, workers: u32) -> Result<Rounds, NoMemory>
        ensures opened { IfOk result (λ r. IsOpened test limit workers r) }
        ensures made { IfOk result (λ r. r ≡ opened_master (opened_work test limit) workers) }
    {
        let tasks = Worklist::new(alloc, test, limit);
        let master = Master::new(alloc, tasks, workers)?;
        Ok(Rounds { master })
    }

    /// Feeds a task in.
    pub fn feed(&mut self, t: Record) -> Result<(), NoMemory>
        requires { IsRound self.old }
        ensures { OnOk result (GoesRound self.old self.new (Fed t ∷ log_of self.old) (taken_of self.old)) }
    {
        self.master.offer(t)
    }

    /// The next task, for worker `w`. `None` comes exactly where none may be given.
    pub fn give(&mut self, w: u32) -> Result<Option<Record>, NoMemory>
        requires round { IsRound self.old }
        requires worker { w < workers_of self.old }
        ensures { IfOk result (λ t. GivesTask w self.old t self.new) }
    {
        self.master.give(w)
    }

    /// What worker `w` sent for the oldest task that it has. Each record that meets the test is a task more, each other one
    /// a result.
    pub fn got(&mut self, w: u32, answer: Sends) -> Result<(), NoMemory>
        requires round { IsRound self.old }
        requires worker { w < workers_of self.old }
        requires owed { length (got_from w (log_of self.old)) < length (given_to w (log_of self.old)) }
        ensures { OnOk result (GoesRound self.old self.new (Got w answer.sends ∷ log_of self.old) (taken_of self.old)) }
    {
        self.master.got(w, answer)
    }

    /// How many tasks worker `w` has.
    pub fn out(&self, w: u32) -> u64
        requires round { IsRound self.now }
        requires worker { w < workers_of self.now }
        ensures { result + length (got_from w (log_of self.now)) ≡ length (given_to w (log_of self.now)) }
    {
        self.master.out(w)
    }

    /// Whether all is done: no task may be given, and no worker has one.
    pub fn is_done(&self) -> bool
        requires { IsRound self.now }
        ensures { IsTrue result ↔ IsDone (workers_of self.now) (limit_of self.now) (test_of self.now) (log_of self.now) }
    {
        self.master.idle()
    }

    /// Whether there are more tasks than the limit allows. Then no more are given, and results are dropped.
    pub fn is_over(&self) -> bool
        requires { IsRound self.now }
        ensures { IsTrue result ↔ IsPastLimit (limit_of self.now) (test_of self.now) (log_of self.now) }
    {
        self.master.over()
    }

    /// The first result that is held, which is taken out.
    pub fn take_result(&mut self) -> Option<Record>
        requires { IsRound self.old }
        ensures { TakesOut self.old result self.new }
    {
        self.master.take_result()
    }
}
