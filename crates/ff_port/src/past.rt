// What happened before, for clauses alone.
ghost use Rattle.std.specs.Prelude.{◌≡◌, ◌∷◌, ◌++◌, []};

use std::marker::Model;
use std::snapshot::Snapshot;

/// A list that clauses read and no code does: it takes no memory, however long it grows.
#[cycle(past)]
#[derive(Drop)]
pub struct Past<E> {
    last: Last<E>,
}

// The newest element with the list before it.
#[cycle(past)]
#[derive(Drop)]
enum Last<E> {
    Nothing,
    Noted(Snapshot<E>, Snapshot<Past<E>>),
}

impl<E> Model for Past<E> {
    ghost use Rattle.std.specs.Prelude.{List, length};

    ghost Value = { List E };

    ghost use Rattle.ff_port.specs.Noted.{noted};

    ghost view = { λ p. noted p.last };

    ghost size = { length };

    ghost use Rattle.std.proofs.Common.{arith};
    ghost use Rattle.ff_port.specs.PastLaws.{deep-Last-noted};

    ghost size_decreases = { λ p h. omega (arith, deep-Last-noted p.last) };
}

impl<E> Past<E> {
    /// Nothing happened yet.
    pub fn new() -> Past<E>
        ensures { result ≡ [] }
    {
        Past {
            last: Last::Nothing,
        }
    }

    /// Adds what happened last.
    pub fn note(&mut self, x: &E)
        ensures { self.new ≡ self.old ++ x.now ∷ [] }
    {
        let before = Snapshot::of(self);
        self.last = Last::Noted(Snapshot::of(x), before);
    }
}
