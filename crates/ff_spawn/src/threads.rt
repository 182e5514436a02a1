// Real threads.
ghost use Rattle.std.specs.Prelude.{◌≡◌, false};
ghost use Rattle.ff_spawn.specs.Counts.{more, more_by};

use crate::{Counting, Denial, Job, Refusals, Spawner};
use std::sync::Wait;
use std::thread;

/// Starts threads by a handle. The standard library alone refuses a start.
#[derive(Drop)]
pub struct Threads<R> {
    rt: R,
    refused: u64,
    starts: u64,
    worked: u64,
}

impl<R> Threads<R> {
    /// Nothing was started yet.
    pub fn new(rt: R) -> Threads<R>
        ensures refused { ⟦<Threads<R> as Refusals>⟧.refused result ≡ 0 }
        ensures starts { ⟦<Threads<R> as Refusals>⟧.starts result ≡ 0 }
        ensures worked { ⟦<Threads<R> as Refusals>⟧.worked result ≡ 0 }
    {
        Threads {
            rt,
            refused: 0,
            starts: 0,
            worked: 0,
        }
    }

    /// How many starts were refused.
    pub fn refused(&self) -> u64
        ensures { result ≡ ⟦<Threads<R> as Refusals>⟧.refused self.now }
    {
        self.refused
    }

    /// How many jobs were started.
    pub fn starts(&self) -> u64
        ensures { result ≡ ⟦<Threads<R> as Refusals>⟧.starts self.now }
    {
        self.starts
    }

    /// How much the finished jobs handled.
    pub fn worked(&self) -> u64
        ensures { result ≡ ⟦<Threads<R> as Refusals>⟧.worked self.now }
    {
        self.worked
    }
}

impl<R> Refusals for Threads<R> {
    ghost refused = { λ s. s.refused };

    ghost starts = { λ s. s.starts };

    ghost worked = { λ s. s.worked };
}

impl<J: Job + Send + 'static, R: thread::Threads + Wait + Clone + Drop + Send + 'static> Spawner<J>
    for Threads<R> {
    type Handle = R;

    ghost denies = { λ _. false };

    fn admit(&mut self, _by: &Counting) -> Result<R, Denial> {
        match self.rt.clone() {
            Ok(rt) => Ok(rt),
            Err(_) => Err(Denial::NoMemory),
        }
    }

    fn count_refused(&mut self, _by: &Counting) {
        self.refused = self.refused.saturating_add(1);
    }

    fn count_started(&mut self, _by: &Counting) {
        self.starts = self.starts.saturating_add(1);
    }

    fn count_worked(&mut self, _by: &Counting, work: u64) {
        self.worked = self.worked.saturating_add(work);
    }

    fn handle(&self) -> &R {
        &self.rt
    }
}
