// What a master did.
ghost use Rattle.std.specs.Prelude.{◌≡◌, ◌∷◌, []};
ghost use Rattle.ff_loop.specs.Moves.{Fed, Gave, Got};

use ff_port::Past;
use std::marker::Model;
use std::snapshot::Snapshot;

/// All moves of a master, the newest first. Clauses alone read it: it takes no memory.
#[derive(Drop)]
pub(crate) struct Log<T, A> {
    past: Past<Moved<T, A>>,
}

// One move, with the number of its task. Nothing of a task or an answer is stored in it.
#[derive(Drop)]
enum Moved<T, A> {
    WasFed(Snapshot<T>),
    WasGiven(u32, u64, Snapshot<T>),
    WasGot(u32, u64, Snapshot<A>),
}

impl<T, A> Model for Log<T, A> {
    ghost use Rattle.std.specs.Prelude.{List};
    ghost use Rattle.ff_loop.specs.Moves.{Move};
    ghost use Rattle.ff_loop.specs.Noted.{backward, move_of};

    ghost Value = { List (Move T A) };

    ghost view = { λ l. backward move_of l.past };
}

impl<T: Drop, A: Drop> Log<T, A> {
    /// Nothing was done yet.
    pub(crate) fn new() -> Log<T, A>
        ensures { result ≡ [] }
    {
        Log { past: Past::new() }
    }

    /// A task was fed in.
    pub(crate) fn fed(&mut self, t: &T)
        ensures { self.new ≡ Fed t.now ∷ self.old }
    {
        self.past.note(&Moved::WasFed(Snapshot::of(t)));
    }

    /// The task of this number was given to a worker.
    pub(crate) fn gave(&mut self, worker: u32, id: u64, t: &T)
        ensures { self.new ≡ Gave worker id t.now ∷ self.old }
    {
        self.past
            .note(&Moved::WasGiven(worker, id, Snapshot::of(t)));
    }

    /// The answer to the task of this number was got from a worker.
    pub(crate) fn got(&mut self, worker: u32, id: u64, a: &A)
        ensures { self.new ≡ Got worker id a.now ∷ self.old }
    {
        self.past.note(&Moved::WasGot(worker, id, Snapshot::of(a)));
    }
}
