// The network of a soak.
ghost use Rattle.std.specs.Prelude.{◌≡◌, ◌≤◌, IfOk};
ghost use Rattle.ff_net.specs.Tree.{tree_of, Leaf, Farm, A2a};
ghost use Rattle.ff_ops.specs.Arguments.{AllFit};
ghost use Rattle.ff_ops.specs.Operation.{operation};
ghost use Rattle.ff_ops.specs.Table.{kinds_of};
ghost use Rattle.ff_soak.specs.Networks.{soak_net, times_three, same_again, totals, numbered};

use ff_net::{Checked, Net, Route, Sched, Version, check};
use ff_ops::{Arg, Op, Row};
use ff_rec::NoMemory;
use std::alloc::Global;

/// The most workers of a soak.
pub const MOST_WORKERS: u32 = 16;

/// The network, which keeps all rules.
pub(crate) fn soak_network(alloc: Global, workers: u32) -> Result<Checked<Op>, NoMemory>
    requires some { 1 ≤ workers }
    requires few { workers ≤ MOST_WORKERS }
    ensures { IfOk result (λ checked. tree_of checked.net ≡ soak_net workers) }
{
    let net = unchecked(alloc, workers)?;
    match check(net, Version::Two) {
        Ok(checked) => Ok(checked),
        Err(_) => unreachable!(),
    }
}

// `pipe(farm w rr (mul 2 3), a2a w (id) by 1 w (totalby 1 2))`
#[tactic(auto, using(ff_net::specs::Tree::tree_forms))]
fn unchecked(alloc: Global, workers: u32) -> Result<Net<Op>, NoMemory>
    ensures { IfOk result (λ net. tree_of net ≡ soak_net workers) }
{
    let mut parts = Vec::new(alloc);
    parts.push(tripled(alloc, workers)?)?;
    parts.push(totalled(alloc, workers)?)?;
    Ok(Net::Pipe(parts))
}

// `farm w rr (mul 2 3)`
fn tripled(alloc: Global, workers: u32) -> Result<Net<Op>, NoMemory>
    ensures { IfOk result (λ net. tree_of net ≡ Farm workers Sched.Rr (Leaf times_three)) }
{
    let node = operation(alloc, Row::Mul, &[2, 3])?;
    Ok(Net::Farm {
        workers,
        sched: Sched::Rr,
        worker: Box::new(alloc, Net::Leaf(node))?,
    })
}

// `a2a w (id) by 1 w (totalby 1 2)`
fn totalled(alloc: Global, workers: u32) -> Result<Net<Op>, NoMemory>
    ensures { IfOk result (λ net.
        tree_of net ≡ A2a workers (Leaf same_again) (Route.By 1) workers (Leaf totals)) }
{
    let left = operation(alloc, Row::Id, &[])?;
    let right = operation(alloc, Row::TotalBy, &[1, 2])?;
    Ok(Net::A2a {
        left: workers,
        left_node: Box::new(alloc, Net::Leaf(left))?,
        route: Route::By(1),
        right: workers,
        right_node: Box::new(alloc, Net::Leaf(right))?,
    })
}

// The operation of a row with these numbers.
fn operation(alloc: Global, row: Row, numbers: &[i64]) -> Result<Op, NoMemory>
    requires { AllFit (numbered numbers.now) (kinds_of row) }
    ensures { IfOk result (λ op. op ≡ operation row (numbered numbers.now)) }
{
    let mut args = Vec::with_capacity(alloc, numbers.len())?;
    for n in numbers {
        args.push(Arg::Num(*n))?;
    }
    Op::of_row(alloc, row, args)
}
