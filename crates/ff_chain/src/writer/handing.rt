// How links go over the spine.
ghost use Rattle.std.specs.Prelude.{◌≡◌, ◌<◌, ◌↔◌, [], length, IsTrue, IsFalse};
ghost use Rattle.rtrb.specs.Ring.{known_free, ProducerLooked};
ghost use Rattle.ff_chain.specs.Chains.{KeepsLinks, put_chain, written_chain};

use crate::link::{Chained, Link};
use crate::writer::Writer;
use ff_ring::Bell;
use rtrb::Producer;
use std::alloc::Global;
use std::snapshot::Snapshot;

impl<T: Drop> Writer<T> {
    /// Hands over the links that wait: a writer that puts seldom shall not keep them.
    #[inline(always)]
    pub(super) fn catch_up(&mut self)
        ensures link { written_chain self.new ≡ written_chain self.old }
        ensures put { put_chain self.new ≡ put_chain self.old }
    {
        if !self.waiting.is_empty() {
            self.hand_over();
        }
    }

    /// Hands over the links that wait, as far as the spine has room. It answers whether none is
    /// left.
    pub(crate) fn hand_over(&mut self) -> bool
        ensures link { written_chain self.new ≡ written_chain self.old }
        ensures put { put_chain self.new ≡ put_chain self.old }
        ensures cur { self.new.cur ≡ self.old.cur }
        ensures none { IsTrue result ↔ (self.new.waiting.items ≡ []) }
        ensures no_room { IsFalse result → known_free self.new.spine ≡ 0 }
    {
        while self.hand_one() {}
        self.waiting.is_empty()
    }

    /// Hands over the first link that waits. It answers whether one was handed over.
    pub(crate) fn hand_one(&mut self) -> bool
        ensures link { written_chain self.new ≡ written_chain self.old }
        ensures put { put_chain self.new ≡ put_chain self.old }
        ensures cur { self.new.cur ≡ self.old.cur }
        ensures fewer { IsTrue result → length self.new.waiting.items < length self.old.waiting.items }
        ensures none { IsFalse result → 0 < length self.new.waiting.items → known_free self.new.spine ≡ 0 }
        ensures stays { IsFalse result → KeepsLinks self.old self.new }
    {
        if !sees_room(&mut self.spine, &self.writer) {
            return false;
        }
        let Some(link) = self.waiting.pop_front() else {
            return false;
        };
        self.opener = Snapshot::of(&link.next);
        self.spine.push_reserved(link);
        self.reader.ring();
        true
    }
}

// Whether the spine has room. Where it has none, the thread says so at its bell and looks once
// more: whoever made room before that didn't see that it was wanted.
fn sees_room<T>(spine: &mut Producer<Link<T>, Global, Chained>, writer: &Bell) -> bool
    ensures looked { ProducerLooked spine.old spine.new }
    ensures value { IsTrue result ↔ (0 < known_free spine.new) }
{
    if !spine.is_full() {
        return true;
    }
    writer.wants_room();
    !spine.is_full()
}
