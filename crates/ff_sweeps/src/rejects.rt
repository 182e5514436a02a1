// What the units of a core still hold.
ghost use Rattle.std.specs.Prelude.{◌≡◌, IfOk};
ghost use Rattle.ff_steps.specs.Core.{held_rejects};
ghost use Rattle.ff_steps.specs.NetUnits.{net_does};

use ff_node::{Node, Records};
use ff_rec::NoMemory;
use ff_steps::NetCore;
use std::alloc::Global;

/// Takes out the rejects that the units hold, from the first unit on.
pub(crate) fn take_rejects<N: Node>(
    alloc: Global,
    core: &mut NetCore<N>,
) -> Result<Records, NoMemory>
    ensures kept { IfOk result (λ kept. kept ≡ held_rejects (net_does N.does) core.old.core) }
    ensures output { core.new.core.drainer ≡ core.old.core.drainer }
{
    let mut kept = Records::new(alloc);
    while let Some(r) = core.take_reject() {
        kept.push(r)?;
    }
    Ok(kept)
}
