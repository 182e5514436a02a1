// Whether more is to come before the next record is fed.
ghost use Rattle.std.specs.Prelude.{◌≡◌};
ghost use Rattle.ff_engine.specs.Seen.{caller_of};

use crate::caller::Caller;
use ff_port::Outbox;
use ff_ring::Bell;
use std::alloc::Global;
use std::sync::{Arc, Wait};

impl Caller {
    /// Hands over what waits, and answers whether nothing more comes behind what the last ring holds: all units rest. It is
    /// asked where no text is held, so of networks without a wrap.
    ///
    /// While all of them rest, nothing changes: each waits for its in or its out. If one waited for its out, the ring
    /// behind it wouldn't be empty, so that the unit behind waited for its out too, and so on to the last ring. So where
    /// nothing is found there afterwards, each waits for its in, and nothing is on its way.
    pub(crate) fn is_still(&mut self) -> bool
        ensures { caller_of self.new ≡ caller_of self.old }
    {
        self.first.flush() && all_rest(&self.bells)
    }

    /// A pause in which not all bells ring that are waited for: a unit that goes to rest rings none.
    pub(crate) fn watch<R: Wait>(&mut self, rt: &R)
        ensures { caller_of self.new ≡ caller_of self.old }
    {
        self.pause.watch(rt);
    }
}

// Whether the threads of these bells all rested at one moment: between a first look at all of them and a second one.
fn all_rest(bells: &[Arc<Bell, Global>]) -> bool {
    bells.iter().all(|bell| bell.notes_rest()) && bells.iter().all(|bell| bell.still_rests())
}
