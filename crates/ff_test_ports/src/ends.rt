// The ports of a unit that is tried alone.
ghost use Rattle.std.specs.Prelude.{◌≡◌, [], length, map, replicate, IfOk};
ghost use Rattle.ff_port.specs.Queues.{put_of};

use crate::scripts::ROOM;
use crate::{Fickle, queue_of, script_of};
use ff_port::{OwnPorts, PlainQueue};
use ff_rec::{NoMemory, Record};
use std::alloc::{AllocError, Global};

/// The ends of queues that only one unit uses.
pub type QueuePorts = OwnPorts<PlainQueue<Record>, PlainQueue<Record>, Record>;

/// An in for each script, which holds it, and so many empty outs. Their tries go by random numbers from `seed` on.
pub fn ports_of(
    alloc: Global,
    scripts: &[&str],
    outs: usize,
    seed: u32,
) -> Result<Fickle<QueuePorts>, NoMemory>
    ensures gots { IfOk result (λ p. map (λ q. q.got) p.ports.ins.items ≡ replicate (length scripts.now) []) }
    ensures puts { IfOk result (λ p. map (λ q. put_of q) p.ports.outs.items ≡ replicate outs []) }
{
    let mut ins = Vec::new(alloc);
    for script in scripts {
        ins.push(queue_of(alloc, script)?)?;
    }
    let mut empty = Vec::new(alloc);
    for _ in 0..outs {
        empty.push(PlainQueue::new(alloc, ROOM)?)?;
    }
    Ok(Fickle::new(OwnPorts::new(ins, empty), seed))
}

/// What stands at the outs, a script for each, with a space behind each. Nothing is left there then.
pub fn scripts_at(alloc: Global, ports: Fickle<QueuePorts>) -> Result<String, AllocError> {
    let (_, outs) = ports.into_inner().into_ends();
    let mut scripts = String::new(alloc);
    for mut out in outs {
        scripts.push_str(&script_of(alloc, &mut out)?)?;
        scripts.push(' ')?;
    }
    Ok(scripts)
}
