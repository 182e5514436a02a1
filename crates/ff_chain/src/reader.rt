// The reading end of a chain.
ghost use Rattle.std.specs.Prelude.{◌≡◌, [], ◌∷◌, ◌++◌};
ghost use Rattle.rtrb.specs.Ring.{received};
ghost use Rattle.ff_ring.specs.Ends.{got_of, read_ring};
ghost use Rattle.ff_chain.specs.Uses.{lives_of, opened_ring, opened_base, life_ahead, ring_ahead, base_ahead, ring_closing, base_closing};
ghost use Rattle.ff_chain.specs.Props.{RingName-set, RingNames-set};

use crate::blank::Blank;
use crate::link::{Chained, Link};
use crate::reading::Reading;
use ff_port::Inbox;
use ff_rec::Msg;
use ff_ring::{Bell, RingIn};
use rtrb::{Consumer, Producer};
use std::alloc::Global;
use std::snapshot::Snapshot;
use std::sync::Arc;

mod passing;

/// The reading end of a chain. It reads one segment until all was taken that was put before the
/// segment was closed, and then the next one.
#[derive(Drop)]
pub struct Reader<T> {
    pub(crate) spine: Consumer<Link<T>, Global, Chained>,
    // Segments that go back.
    blanks: Producer<Blank<T>, Global>,
    pub(crate) reading: Reading<T>,
    // The link that closes the segment that is read, once it came.
    pub(crate) ahead: Option<Link<T>>,
    // The spine as it was when that segment was opened.
    pub(crate) seen: Snapshot<Consumer<Link<T>, Global, Chained>>,
    eager: bool,
    writer: Arc<Bell, Global>,
    ghost lives: { lives_of (received spine) ≡ lives_of (received seen.value) ++ life_ahead ahead },
    ghost ring: { opened_ring (received spine) ≡ ring_ahead ahead (read_ring reading.inn) ∷ [] } by { RingNames-set (opened_ring (received spine)) (ring_ahead ahead (read_ring reading.inn) ∷ []) },
    ghost base: { opened_base (received spine) ≡ base_ahead ahead (got_of reading.base.value) ∷ [] },
    ghost closes_ring: { ring_closing ahead (read_ring reading.inn) ≡ read_ring reading.inn } by { RingName-set (ring_closing ahead (read_ring reading.inn)) (read_ring reading.inn) },
    ghost closes_base: { base_closing ahead (got_of reading.base.value) ≡ got_of reading.base.value },
}

impl<T: Drop> Reader<T> {
    ghost use Rattle.std.specs.Prelude.{None};
    ghost use Rattle.ff_ring.specs.Ends.{known_of};
    ghost use Rattle.ff_ring.specs.Names.{name_of};
    ghost use Rattle.ff_chain.specs.Chains.{got_chain, known_chain, read_chain};

    /// The end that reads the segment that was opened last.
    pub(crate) fn new(
        spine: Consumer<Link<T>, Global, Chained>,
        blanks: Producer<Blank<T>, Global>,
        next: RingIn<T>,
        writer: Arc<Bell, Global>,
    ) -> Reader<T>
        requires ring { opened_ring (received spine) ≡ read_ring next ∷ [] }
        requires base { opened_base (received spine) ≡ got_of next ∷ [] }
        ensures link { read_chain result ≡ name_of spine.end }
        ensures got { got_chain result ≡ lives_of (received spine) }
        ensures known { known_chain result ≡ known_of next }
    {
        let seen = Snapshot::of(&spine);
        Reader {
            spine,
            blanks,
            reading: Reading::new(next),
            ahead: None,
            seen,
            eager: true,
            writer,
        }
    }

    /// Whether the writer is told of each block that comes back, which it is until an end is told
    /// otherwise: see the same of a ring.
    pub fn set_eager(&mut self, eager: bool)
        ensures link { read_chain self.new ≡ read_chain self.old }
        ensures got { got_chain self.new ≡ got_chain self.old }
        ensures known { known_chain self.new ≡ known_chain self.old }
    {
        self.eager = eager;
        self.reading.set_eager(eager);
    }

    // Where nothing is known to be left in the segment that is read: looks for the link that closes
    // it.
    #[inline(never)]
    fn look_ahead(&mut self)
        ensures link { read_chain self.new ≡ read_chain self.old }
        ensures got { got_chain self.new ≡ got_chain self.old }
    {
        if self.ahead.is_some() || self.takes_link() {
            self.pass();
        }
    }

    // Takes a link off the spine. It answers whether there was one.
    fn takes_link(&mut self) -> bool
        requires { self.old.ahead ≡ None }
        ensures link { read_chain self.new ≡ read_chain self.old }
        ensures got { got_chain self.new ≡ got_chain self.old }
    {
        let Ok(link) = self.spine.pop() else {
            return false;
        };
        self.ahead = Some(link);
        self.writer.ring_for_room();
        true
    }
}

impl<T: Drop> Inbox<T> for Reader<T> {
    ghost use Rattle.ff_port.specs.Channels.{Takes};
    ghost use Rattle.ff_ring.specs.Names.{RingName};
    ghost use Rattle.ff_chain.specs.Chains.{got_chain, known_chain, read_chain};

    ghost got = { λ inn. got_chain inn };

    ghost known = { λ inn. known_chain inn };

    ghost Link = { RingName };

    ghost link = { λ inn. read_chain inn };

    #[inline(always)]
    fn try_take(&mut self) -> Option<Msg<T>>
        ensures link { read_chain self.new ≡ read_chain self.old }
        ensures takes { Takes (got_chain self.old) (known_chain self.old) result (got_chain self.new) (known_chain self.new) }
    {
        match self.reading.try_take() {
            Some(m) => Some(m),
            None => {
                self.look_ahead();
                self.reading.try_take()
            }
        }
    }

    fn tell(&mut self)
        ensures link { read_chain self.new ≡ read_chain self.old }
        ensures got { got_chain self.new ≡ got_chain self.old }
        ensures known { known_chain self.new ≡ known_chain self.old }
    {
        self.reading.tell();
    }
}
