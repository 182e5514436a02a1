// How a ring is made.
ghost use Rattle.std.specs.Prelude.{◌≡◌, ◌+◌, ◌-◌, ◌<◌, ◌≤◌, ◌^◌, [], length, All, IfOk, IsTrue};
ghost use Rattle.std.proofs.Common.{deque_capacity};
ghost use Rattle.rtrb.specs.Ring.{known_free, received, known_items};
ghost use Rattle.ff_ring.specs.Ends.{put_of, got_of, known_of, room_of, is_eager, is_eager_in, written_ring, read_ring, IsMade};
ghost use Rattle.ff_ring.specs.Sizes.{bundle_size, bundle_count};

use crate::bundle::{Bundle, Emptied, Filled};
use crate::inlet::Inlet;
use crate::outlet::Outlet;
use crate::ringer::{News, Ringer};
use crate::{Bell, RingIn, RingOut};
use ff_rec::NoMemory;
use rtrb::{Consumer, Producer, RingBuffer};
use std::alloc::Global;
use std::collections::VecDeque;
use std::sync::Arc;

// The most messages of a bundle.
const FULL_BUNDLE: usize = 32;

/// The two ends of a ring that holds about `cap` messages, each with the bell of the other's thread. All memory
/// that the ring will ever need is taken here. A ring of one slot holds one message; one of more may hold a bundle
/// more at each end.
pub fn ring<T: Drop>(
    alloc: Global,
    cap: usize,
    writer: Arc<Bell, Global>,
    reader: Arc<Bell, Global>,
) -> Result<(RingOut<T>, RingIn<T>), NoMemory>
    requires some { 1 ≤ cap }
    requires most { cap ≤ 4097 }
    ensures pair { IfOk result (λ r. read_ring r.1 ≡ written_ring r.0) }
    ensures put { IfOk result (λ r. put_of r.0 ≡ []) }
    ensures got { IfOk result (λ r. (got_of r.1 ≡ []) × (known_of r.1 ≡ 0)) }
    ensures made { IfOk result (λ r. IsMade cap r.0) }
    ensures eager { IfOk result (λ r. IsTrue (is_eager r.0) × IsTrue (is_eager_in r.1)) }
{
    let size = bundle_size(cap);
    let count = cap.div_ceil(size);
    let (end, taking) = RingBuffer::with_protocol::<Global, Filled>(alloc, count)?;
    let (giving, spares) = spare_blocks(alloc, count, size)?;
    let outlet = Outlet {
        end,
        spares,
        reader: Ringer::new(reader, News::Bundles),
        writer: Arc::try_clone(&writer)?,
    };
    let inlet = Inlet {
        end: taking,
        spares: giving,
        writer: Ringer::new(writer, News::Room),
    };
    let out = RingOut::new(outlet, VecDeque::with_capacity(alloc, size)?);
    let inn = RingIn::new(inlet, VecDeque::with_capacity(alloc, size)?);
    Ok((out, inn))
}

// Two bundles fit into a ring of two messages or more, so that one is filled while the other is emptied.
fn bundle_size(cap: usize) -> usize
    ensures { result ≡ bundle_size cap }
{
    (cap / 2).clamp(1, FULL_BUNDLE)
}

// The way on which blocks come back, with one empty block for each slot of the ring. It has one place more than that,
// so that each block that comes back finds one.
fn spare_blocks<T: Drop>(
    alloc: Global,
    count: usize,
    size: usize,
) -> Result<
    (
        Producer<Bundle<T>, Global, Emptied>,
        Consumer<Bundle<T>, Global, Emptied>,
    ),
    NoMemory,
>
    requires few { count < 2 ^ 62 }
    requires some { 0 < size }
    ensures count { IfOk result (λ r. length (known_items r.1) ≡ count) }
    ensures size { IfOk result (λ r. All (λ b. deque_capacity b ≡ size) (known_items r.1)) }
    ensures place { IfOk result (λ r. 0 < known_free r.0) }
{
    let (mut giving, mut spares) = RingBuffer::with_protocol::<Global, Emptied>(alloc, count + 1)?;
    for _ in 0..count {
        giving.push_reserved(VecDeque::with_capacity(alloc, size)?);
    }
    spares.slots_beside(&mut giving);
    Ok((giving, spares))
}
