// How the reader goes from one segment to the next.
ghost use Rattle.std.specs.Prelude.{◌≡◌, ◌<◌, [], length, None, IsTrue, IsFalse};
ghost use Rattle.rtrb.specs.Ring.{known_items};
ghost use Rattle.ff_chain.specs.Uses.{IsStuck};
ghost use Rattle.ff_chain.specs.Chains.{came_links, got_chain, read_chain};

use crate::blank::Blank;
use crate::link::Link;
use crate::reader::Reader;
use crate::reading::Reading;
use ff_ring::settle;
use rtrb::{Producer, PushError};
use std::alloc::Global;
use std::mem;
use std::snapshot::Snapshot;

impl<T: Drop> Reader<T> {
    /// Takes a link off the spine that is known to be there.
    pub(crate) fn take_known(&mut self)
        requires none { self.old.ahead ≡ None }
        requires known { 0 < length (known_items self.old.spine) }
        ensures link { read_chain self.new ≡ read_chain self.old }
        ensures got { got_chain self.new ≡ got_chain self.old }
        ensures all { came_links self.new ≡ came_links self.old }
        ensures fewer { length (known_items self.new.spine) < length (known_items self.old.spine) }
    {
        self.ahead = Some(self.spine.pop_known());
    }

    /// Goes on through all links that are known, as long as all was taken that was put before each.
    /// It answers whether it came to the last.
    pub(crate) fn pass_known(&mut self) -> bool
        ensures link { read_chain self.new ≡ read_chain self.old }
        ensures got { got_chain self.new ≡ got_chain self.old }
        ensures all { came_links self.new ≡ came_links self.old }
        ensures passed { IsTrue result → (self.new.ahead ≡ None) × (known_items self.new.spine ≡ []) }
        ensures stuck { IsFalse result → IsStuck self.new.ahead self.new.reading }
    {
        loop {
            if !self.pass() {
                return false;
            }
            if self.spine.cached_slots() == 0 {
                return true;
            }
            self.take_known();
        }
    }

    /// Goes on to the next segment, where the link came that closes the one that is read, and all of
    /// that was taken. It answers whether no such link is left.
    pub(crate) fn pass(&mut self) -> bool
        ensures link { read_chain self.new ≡ read_chain self.old }
        ensures got { got_chain self.new ≡ got_chain self.old }
        ensures spine { self.new.spine ≡ self.old.spine }
        ensures passed { IsTrue result → self.new.ahead ≡ None }
        ensures stuck { IsFalse result → IsStuck self.new.ahead self.new.reading }
    {
        let Some(link) = mem::replace(&mut self.ahead, None) else {
            return true;
        };
        let Link {
            mut closed,
            mut next,
        } = link;
        if !settle(&mut closed.out, &mut self.reading.inn) {
            self.ahead = Some(Link { closed, next });
            return false;
        }
        next.set_eager(self.eager);
        let emptied = mem::replace(&mut self.reading, Reading::new(next));
        self.seen = Snapshot::of(&self.spine);
        give_back(
            &mut self.blanks,
            Blank {
                out: closed.out,
                inn: emptied.inn,
            },
        );
        true
    }
}

// Gives an empty segment back to the writer. Where it has enough of them, this one is let go.
fn give_back<T: Drop>(blanks: &mut Producer<Blank<T>, Global>, blank: Blank<T>) {
    match blanks.push(blank) {
        Ok(()) => {}
        Err(PushError::Full(blank)) => drop(blank),
    }
}
