// The units of a wrap.
ghost use Rattle.std.specs.Prelude.{◌≡◌, ◌≤◌, ◌++◌, [], ◌∷◌, OnOk};
ghost use Rattle.ff_net.specs.Good.{Good, PlainNode};
ghost use Rattle.ff_net.specs.Tree.{tree_of, Wrap};
ghost use Rattle.ff_steps.specs.PlanUnits.{units_in, worker_unit, times};

use crate::NetUnit;
use crate::making::{Making, add_unit};
use ff_loop::{WrapMaster, WrapWorker};
use ff_net::{Net, Test};
use ff_node::{Comb, Node};
use ff_rec::NoMemory;

/// Adds the units of a wrap: its master and its workers.
pub(crate) fn add_wrap<N: Node>(
    making: Making,
    workers: u32,
    worker: &Net<N>,
    test: Test,
    units: &mut Vec<NetUnit<N>>,
) -> Result<(), NoMemory>
    requires some { 1 ≤ workers }
    requires few { workers ≤ 64 }
    requires plain { PlainNode N.does (tree_of worker.now) }
    requires good { Good N.does (tree_of worker.now) }
    ensures { OnOk result (units.new.items
        ≡ units.old.items ++ units_in N.does making.limit making.keep (Wrap workers (tree_of worker.now) test)) }
{
    let master = WrapMaster::new(making.alloc, test, making.limit, workers)?;
    add_unit(NetUnit::of_master(master), units)?;
    add_workers(making, worker, workers, units)
}

// Adds so many workers that run this leaf or comb.
fn add_workers<N: Node>(
    making: Making,
    net: &Net<N>,
    count: u32,
    units: &mut Vec<NetUnit<N>>,
) -> Result<(), NoMemory>
    requires plain { PlainNode N.does (tree_of net.now) }
    requires good { Good N.does (tree_of net.now) }
    ensures { OnOk result (units.new.items
        ≡ units.old.items ++ times count (worker_unit N.does making.keep (tree_of net.now) ∷ [])) }
{
    for _ in 0..count {
        add_worker(making, net, units)?;
    }
    Ok(())
}

// Adds one of them.
fn add_worker<N: Node>(
    making: Making,
    net: &Net<N>,
    units: &mut Vec<NetUnit<N>>,
) -> Result<(), NoMemory>
    requires plain { PlainNode N.does (tree_of net.now) }
    requires good { Good N.does (tree_of net.now) }
    ensures { OnOk result (units.new.items
        ≡ units.old.items ++ worker_unit N.does making.keep (tree_of net.now) ∷ []) }
{
    let nodes = net.nodes(making.alloc)?;
    let worker = WrapWorker::new(making.alloc, Comb::new(nodes), making.keep);
    add_unit(NetUnit::of_worker(worker), units)
}
