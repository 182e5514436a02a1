// The writing end of a chain.
ghost use Rattle.std.specs.Prelude.{◌≡◌, ◌<◌, ◌≤◌, ◌↔◌, [], ◌∷◌, ◌++◌, map, IsTrue};
ghost use Rattle.rtrb.specs.Ring.{sent, producer_capacity, known_free};
ghost use Rattle.ff_ring.specs.Ends.{put_of, got_of, written_ring, read_ring};
ghost use Rattle.ff_chain.specs.Uses.{closed_ring, closed_base, next_ring, next_base, opened_ring, opened_base, IsKept};
ghost use Rattle.ff_chain.specs.Props.{RingNames-set};

use crate::blank::Blank;
use crate::link::{Chained, Link};
use crate::writing::Writing;
use ff_port::{Outbox, Put};
use ff_rec::{Msg, NoMemory};
use ff_ring::{Bell, RingIn};
use rtrb::{Consumer, Producer};
use std::alloc::Global;
use std::collections::VecDeque;
use std::snapshot::Snapshot;
use std::sync::Arc;

mod handing;
mod placing;

/// The writing end of a chain. It writes one segment, and goes on to another one where there is no
/// room for the next message and the end of the stream behind it. So a put never finds it full.
#[derive(Drop)]
pub struct Writer<T> {
    pub(crate) spine: Producer<Link<T>, Global, Chained>,
    // Segments that come back.
    pub(crate) blanks: Consumer<Blank<T>, Global>,
    // Links for which the spine had no room.
    pub(crate) waiting: VecDeque<Link<T>>,
    pub(crate) cur: Writing<T>,
    segment: usize,
    eager: bool,
    alloc: Global,
    writer: Arc<Bell, Global>,
    reader: Arc<Bell, Global>,
    // The reading end that went over the spine last.
    opener: Snapshot<RingIn<T>>,
    ghost roomy: { 0 < producer_capacity spine },
    ghost some: { 1 ≤ segment },
    ghost most: { segment ≤ 4096 },
    ghost last_ring: { opened_ring (sent spine) ≡ read_ring opener.value ∷ [] } by { RingNames-set (opened_ring (sent spine)) (read_ring opener.value ∷ []) },
    ghost last_base: { opened_base (sent spine) ≡ got_of opener.value ∷ [] },
    // Each link closes the segment that the one before it opened, and the last one opened the
    // segment that is written.
    ghost rings: { map closed_ring waiting.items ++ written_ring cur.out ∷ [] ≡ read_ring opener.value ∷ map next_ring waiting.items } by { RingNames-set (map closed_ring waiting.items ++ written_ring cur.out ∷ []) (read_ring opener.value ∷ map next_ring waiting.items) },
    ghost bases: { map closed_base waiting.items ++ put_of cur.base.value ∷ [] ≡ got_of opener.value ∷ map next_base waiting.items },
    ghost kept: { IsKept cur },
}

/// What a chain is made of.
#[derive(Drop)]
pub(crate) struct Parts {
    pub(crate) segment: usize,
    pub(crate) alloc: Global,
    pub(crate) writer: Arc<Bell, Global>,
    pub(crate) reader: Arc<Bell, Global>,
}

impl<T: Drop> Writer<T> {
    ghost use Rattle.ff_ring.specs.Names.{name_of};
    ghost use Rattle.ff_chain.specs.Uses.{put_in, lives_of};
    ghost use Rattle.ff_chain.specs.Chains.{put_chain, written_chain};

    /// The end that writes the segment that was opened last.
    pub(crate) fn new(
        spine: Producer<Link<T>, Global, Chained>,
        blanks: Consumer<Blank<T>, Global>,
        cur: Writing<T>,
        opener: Snapshot<RingIn<T>>,
        parts: Parts,
    ) -> Writer<T>
        requires roomy { 0 < producer_capacity spine }
        requires some { 1 ≤ parts.segment }
        requires most { parts.segment ≤ 4096 }
        requires last_ring { opened_ring (sent spine) ≡ read_ring opener.value ∷ [] }
        requires last_base { opened_base (sent spine) ≡ got_of opener.value ∷ [] }
        requires ring { written_ring cur.out ≡ read_ring opener.value }
        requires base { put_of cur.base.value ≡ got_of opener.value }
        requires kept { IsKept cur }
        ensures link { written_chain result ≡ name_of spine.end }
        ensures put { put_chain result ≡ lives_of (sent spine) ++ put_in cur }
    {
        let Parts {
            segment,
            alloc,
            writer,
            reader,
        } = parts;
        Writer {
            spine,
            blanks,
            waiting: VecDeque::new(alloc),
            cur,
            segment,
            eager: true,
            alloc,
            writer,
            reader,
            opener,
        }
    }

    /// Whether a put hands over what waits as soon as the reader is seen to have taken all else,
    /// which an end does until it is told otherwise: see the same of a ring.
    pub fn set_eager(&mut self, eager: bool)
        ensures link { written_chain self.new ≡ written_chain self.old }
        ensures put { put_chain self.new ≡ put_chain self.old }
    {
        self.eager = eager;
        self.cur.set_eager(eager);
    }
}

impl<T: Drop> Outbox<T> for Writer<T> {
    ghost use Rattle.std.specs.Prelude.{true, IsFalse};
    ghost use Rattle.ff_rec.specs.Streams.{IsOpen};
    ghost use Rattle.ff_port.specs.Channels.{Puts};
    ghost use Rattle.ff_ring.specs.Names.{RingName};
    ghost use Rattle.ff_chain.specs.Chains.{put_chain, waiting_chain, written_chain};

    ghost put = { λ out. put_chain out };

    ghost room = { λ out. 1 };

    ghost waiting = { λ out. waiting_chain out };

    ghost grows = { true };

    ghost Link = { RingName };

    ghost link = { λ out. written_chain out };

    #[inline(always)]
    fn try_put(&mut self, m: Msg<T>) -> Put<T>
        requires { IsOpen (put_chain self.old) }
        ensures link { written_chain self.new ≡ written_chain self.old }
        ensures puts { Puts true (put_chain self.old) 1 m result (put_chain self.new) 1 }
    {
        match self.make_place(&m) {
            Ok(()) => self.cur.put(m),
            Err(NoMemory) => Put::NoMemory(m),
        }
    }

    fn flush(&mut self) -> bool
        ensures link { written_chain self.new ≡ written_chain self.old }
        ensures puts { put_chain self.new ≡ put_chain self.old }
        ensures flushed { IsTrue result ↔ (waiting_chain self.new ≡ 0) }
        ensures no_room { IsFalse result → known_free self.new.spine ≡ 0 }
    {
        self.cur.flush();
        self.hand_over()
    }
}
