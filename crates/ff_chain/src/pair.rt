// The two ends of a chain: as it is made, and in one thread again.
ghost use Rattle.std.specs.Prelude.{◌≡◌, ◌≤◌, ◌↔◌, [], IfOk, IsTrue};
ghost use mathlib.Core.List.{IsPrefix};

use crate::making::ends;
use crate::settling::settle_ends;
use crate::{ChainIn, ChainOut};
use ff_rec::NoMemory;
use ff_ring::Bell;
use std::alloc::Global;
use std::sync::Arc;

/// The two ends of an unbounded chain of segments, each a ring of about `segment` slots, with the
/// bells of both threads.
pub fn chain<T: Drop>(
    alloc: Global,
    segment: usize,
    writer: Arc<Bell, Global>,
    reader: Arc<Bell, Global>,
) -> Result<(ChainOut<T>, ChainIn<T>), NoMemory>
    requires some { 1 ≤ segment }
    requires most { segment ≤ 4096 }
    ensures pair { IfOk result (λ r. r.1.chain ≡ r.0.chain) }
    ensures put { IfOk result (λ r. r.0.put ≡ []) }
    ensures got { IfOk result (λ r. (r.1.got ≡ []) × (r.1.known ≡ 0)) }
{
    let (out, inn) = ends(alloc, segment, writer, reader)?;
    Ok((ChainOut { inside: out }, ChainIn { inside: inn }))
}

/// Makes the reader know of what was handed over, and hands over what waits at the writer. It
/// answers whether nothing is left inside.
pub fn settle_chain<T: Drop>(out: &mut ChainOut<T>, inn: &mut ChainIn<T>) -> bool
    requires pair { inn.old.chain ≡ out.old.chain }
    ensures writer { out.new.chain ≡ out.old.chain }
    ensures reader { inn.new.chain ≡ inn.old.chain }
    ensures put { out.new.put ≡ out.old.put }
    ensures got { inn.new.got ≡ inn.old.got }
    ensures law { IsPrefix inn.new.got out.new.put }
    ensures none { IsTrue result ↔ (inn.new.got ≡ out.new.put) }
    ensures known { IsTrue result ↔ (inn.new.known ≡ 0) }
{
    settle_ends(&mut out.inside, &mut inn.inside)
}
