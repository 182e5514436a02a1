// The network: pipe(farm 4 rr (comb(drop 1, narrow 3)), widest)
ghost use Rattle.std.specs.Prelude.{◌≡◌, IfOk};
ghost use Rattle.ff_net.specs.Tree.{tree_of};
ghost use Rattle.own_node.specs.Network.{own_net, own_farm, own_worker};

use crate::narrow::Narrow;
use crate::own::Own;
use crate::widest::Widest;
use ff_net::{Checked, Net, Sched, Version, check};
use ff_ops::{Arg, Op, Row};
use ff_rec::NoMemory;
use std::alloc::Global;

/// The network, which keeps all rules.
pub fn own_network(alloc: Global) -> Result<Checked<Own>, NoMemory>
    ensures net { IfOk result (λ checked. tree_of checked.net ≡ own_net) }
    ensures version { IfOk result (λ checked. checked.version ≡ Version.Two) }
{
    match check(unchecked(alloc)?, Version::Two) {
        Ok(checked) => Ok(checked),
        Err(_) => unreachable!(),
    }
}

// The pipe.
#[tactic(auto, using(ff_net::specs::Tree::tree_forms))]
fn unchecked(alloc: Global) -> Result<Net<Own>, NoMemory>
    ensures { IfOk result (λ net. tree_of net ≡ own_net) }
{
    let mut parts = Vec::new(alloc);
    parts.push(farm(alloc)?)?;
    parts.push(Net::Leaf(Own::Count(Widest::new(alloc))))?;
    Ok(Net::Pipe(parts))
}

// The farm.
fn farm(alloc: Global) -> Result<Net<Own>, NoMemory>
    ensures { IfOk result (λ net. tree_of net ≡ own_farm) }
{
    Ok(Net::Farm {
        workers: 4,
        sched: Sched::Rr,
        worker: Box::new(alloc, worker(alloc)?)?,
    })
}

// The worker, of which the farm makes copies.
#[tactic(auto, using(ff_net::specs::Tree::tree_forms))]
fn worker(alloc: Global) -> Result<Net<Own>, NoMemory>
    ensures { IfOk result (λ net. tree_of net ≡ own_worker) }
{
    let mut args = Vec::new(alloc);
    args.push(Arg::Num(1))?;
    let mut parts = Vec::new(alloc);
    parts.push(Net::Leaf(Own::Stock(Op::of_row(alloc, Row::Drop, args)?)))?;
    parts.push(Net::Leaf(Own::Limit(Narrow { most: 3 })))?;
    Ok(Net::Comb(parts))
}
