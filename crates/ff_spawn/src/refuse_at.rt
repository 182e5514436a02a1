// A spawner that refuses chosen starts, for tests.
ghost use Rattle.std.specs.Prelude.{◌≡◌, ◌↔◌, ◌||◌, true};
ghost use Rattle.ff_spawn.specs.Counts.{more, more_by};
ghost use Rattle.ff_spawn.specs.Refusing.{Asked, opened, refuses_next};

use crate::{Counting, Denial, Job, Refusals, Spawner};
use std::marker::Model;

/// Refuses the starts of these numbers, and passes the others on. What it counts is what the inner spawner counts.
#[derive(Drop)]
pub struct RefuseAt<S> {
    inner: S,
    refuse: Vec<u64>,
    asked: u64,
}

impl<S> Model for RefuseAt<S> {
    ghost use Rattle.ff_spawn.specs.Refusing.{Refusing};

    ghost Value = { Refusing S };

    ghost view = { λ s. record { inner = s.inner; refuse = s.refuse.items; asked = s.asked } };
}

impl<S> RefuseAt<S> {
    /// A spawner that refuses the starts of these numbers, counted from 1, and passes the others on to `inner`.
    pub fn new(inner: S, refuse: Vec<u64>) -> RefuseAt<S>
        ensures { result ≡ opened inner refuse.items }
    {
        RefuseAt {
            inner,
            refuse,
            asked: 0,
        }
    }

    /// The spawner that the other starts were passed on to.
    pub fn inner(&self) -> &S
        ensures { result.now ≡ self.now.inner }
    {
        &self.inner
    }

    // Counts a start that is asked for, and tells whether it is listed.
    fn ask(&mut self) -> bool
        ensures listed { result ≡ refuses_next self.old.refuse self.old.asked }
        ensures asked { Asked self.old self.new }
        ensures inner { self.new.inner ≡ self.old.inner }
    {
        self.asked = self.asked.saturating_add(1);
        self.refuse.contains(&self.asked)
    }
}

impl<S: Refusals> Refusals for RefuseAt<S> {
    ghost refused = { λ s. S.refused s.inner };

    ghost starts = { λ s. S.starts s.inner };

    ghost worked = { λ s. S.worked s.inner };
}

impl<J: Job + Send + 'static, S: Spawner<J>> Spawner<J> for RefuseAt<S> {
    type Handle = S::Handle;

    ghost denies = { λ s. refuses_next s.refuse s.asked || S.denies s.inner };

    fn admit(&mut self, by: &Counting) -> Result<S::Handle, Denial>
        ensures denied { (result ≡ Err Denial.Refused)
            ↔ ((refuses_next self.old.refuse self.old.asked || S.denies self.old.inner) ≡ true) }
        ensures refused { S.refused self.new.inner ≡ S.refused self.old.inner }
        ensures starts { S.starts self.new.inner ≡ S.starts self.old.inner }
        ensures worked { S.worked self.new.inner ≡ S.worked self.old.inner }
        ensures asked { Asked self.old self.new }
        ensures unasked { refuses_next self.old.refuse self.old.asked ≡ true
            → self.new.inner ≡ self.old.inner }
    {
        if self.ask() {
            Err(Denial::Refused)
        } else {
            self.inner.admit(by)
        }
    }

    fn count_refused(&mut self, by: &Counting) {
        self.inner.count_refused(by);
    }

    fn count_started(&mut self, by: &Counting) {
        self.inner.count_started(by);
    }

    fn count_worked(&mut self, by: &Counting, work: u64) {
        self.inner.count_worked(by, work);
    }

    fn handle(&self) -> &S::Handle {
        self.inner.handle()
    }
}
