// What happened to a scheduler.
ghost use Rattle.std.specs.Prelude.{◌≡◌, ◌∷◌, []};
ghost use Rattle.ff_loop.specs.Events.{Offered, Given, Back};

use ff_port::Past;
use std::marker::Model;
use std::snapshot::Snapshot;

/// All that happened to a scheduler, the newest first. Clauses alone read it: it takes no memory.
#[derive(Drop)]
pub struct Events<T, A> {
    past: Past<Happened<T, A>>,
}

// One event. Nothing of a task or an answer is stored in it.
#[derive(Drop)]
enum Happened<T, A> {
    WasOffered(Snapshot<T>),
    WasGiven(u64, Snapshot<T>),
    CameBack(u64, Snapshot<A>),
}

impl<T, A> Model for Events<T, A> {
    ghost use Rattle.std.specs.Prelude.{List};
    ghost use Rattle.ff_loop.specs.Events.{SchedEvent};
    ghost use Rattle.ff_loop.specs.Noted.{backward, event_of};

    ghost Value = { List (SchedEvent T A) };

    ghost view = { λ e. backward event_of e.past };
}

impl<T: Drop, A: Drop> Events<T, A> {
    /// Nothing happened yet.
    pub fn new() -> Events<T, A>
        ensures { result ≡ [] }
    {
        Events { past: Past::new() }
    }

    /// A task was fed in.
    pub fn offered(&mut self, t: &T)
        ensures { self.new ≡ Offered t.now ∷ self.old }
    {
        self.past.note(&Happened::WasOffered(Snapshot::of(t)));
    }

    /// A task was given with this number.
    pub fn given(&mut self, id: u64, t: &T)
        ensures { self.new ≡ Given id t.now ∷ self.old }
    {
        self.past.note(&Happened::WasGiven(id, Snapshot::of(t)));
    }

    /// The answer to the task of this number came back.
    pub fn back(&mut self, id: u64, a: &A)
        ensures { self.new ≡ Back id a.now ∷ self.old }
    {
        self.past.note(&Happened::CameBack(id, Snapshot::of(a)));
    }
}
