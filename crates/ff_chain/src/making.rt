// How a chain is made.
ghost use Rattle.std.specs.Prelude.{◌≡◌, ◌<◌, ◌≤◌, [], ◌∷◌, IfOk};
ghost use Rattle.rtrb.specs.Ring.{IsPair, sent, received, producer_capacity};
ghost use Rattle.ff_ring.specs.Ends.{got_of, read_ring};
ghost use Rattle.ff_chain.specs.Uses.{lives_of, opened_ring, opened_base};
ghost use Rattle.ff_chain.specs.Chains.{put_chain, got_chain, known_chain, written_chain, read_chain};

use crate::blank::Blank;
use crate::link::{Chained, Link};
use crate::reader::Reader;
use crate::writer::{Parts, Writer};
use crate::writing::Writing;
use ff_rec::NoMemory;
use ff_ring::{Bell, RingIn};
use rtrb::{Consumer, Producer, RingBuffer};
use std::alloc::Global;
use std::snapshot::Snapshot;
use std::sync::Arc;

// So many links fit on the spine, and so many empty segments wait for their next use.
const LINKS: usize = 32;

/// The two ends of an unbounded chain of segments, each a ring of about `segment` slots, with the
/// bells of both threads.
pub(crate) fn ends<T: Drop>(
    alloc: Global,
    segment: usize,
    writer: Arc<Bell, Global>,
    reader: Arc<Bell, Global>,
) -> Result<(Writer<T>, Reader<T>), NoMemory>
    requires some { 1 ≤ segment }
    requires most { segment ≤ 4096 }
    ensures pair { IfOk result (λ r. read_chain r.1 ≡ written_chain r.0) }
    ensures put { IfOk result (λ r. put_chain r.0 ≡ []) }
    ensures got { IfOk result (λ r. (got_chain r.1 ≡ []) × (known_chain r.1 ≡ 0)) }
{
    let none = Blank::new(alloc, 2, Arc::try_clone(&writer)?, Arc::try_clone(&reader)?)?;
    let first = Blank::new(
        alloc,
        segment + 1,
        Arc::try_clone(&writer)?,
        Arc::try_clone(&reader)?,
    )?;
    let (giving, blanks) = RingBuffer::new(alloc, LINKS)?;
    let parts = Parts {
        segment,
        alloc,
        writer: Arc::try_clone(&writer)?,
        reader,
    };
    let Blank { out, inn } = first;
    let (spine, links, next) = first_link(alloc, none, inn)?;
    let opener = Snapshot::of(&next);
    let out = Writer::new(spine, blanks, Writing::new(out), opener, parts);
    Ok((out, Reader::new(links, giving, next, writer)))
}

// The spine, over which the first segment went. The link closes a segment on which nothing was put.
fn first_link<T: Drop>(
    alloc: Global,
    none: Blank<T>,
    next: RingIn<T>,
) -> Result<
    (
        Producer<Link<T>, Global, Chained>,
        Consumer<Link<T>, Global, Chained>,
        RingIn<T>,
    ),
    NoMemory,
>
    ensures pair { IfOk result (λ r. IsPair r.0 r.1) }
    ensures roomy { IfOk result (λ r. 0 < producer_capacity r.0) }
    ensures lives { IfOk result (λ r. lives_of (sent r.0) ≡ []) }
    ensures same { IfOk result (λ r. received r.1 ≡ sent r.0) }
    ensures ring { IfOk result (λ r. opened_ring (sent r.0) ≡ read_ring r.2 ∷ []) }
    ensures base { IfOk result (λ r. opened_base (sent r.0) ≡ got_of r.2 ∷ []) }
    ensures next { IfOk result (λ r. r.2 ≡ next) }
{
    let (mut spine, mut links) = RingBuffer::with_protocol::<Global, Chained>(alloc, LINKS)?;
    spine.push_reserved(Link {
        closed: Writing::new(none.out),
        next,
    });
    links.slots_beside(&mut spine);
    let Link { closed: _, next } = links.pop_known();
    Ok((spine, links, next))
}
