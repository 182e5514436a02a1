// How farms are laid.
ghost use Rattle.std.specs.Prelude.{◌≡◌, ◌+◌, ◌*◌, ◌≤◌, ◌<◌, ◌++◌, map, length, OnOk, IfOk};
ghost use Rattle.ff_net.specs.Counts.{depth, inner_edges, pick_edges};
ghost use Rattle.ff_net.specs.Tree.{tree_of, Farm, OFarm};
ghost use Rattle.ff_plan.specs.Laying.{lay, lay_copies};

use crate::kinds::{deal_kind, pick_edges};
use crate::laying::lay;
use crate::picks::{add_odeal, add_omerge};
use crate::span::Span;
use crate::units::{add_deal, add_merge};
use crate::{UnitKind, UnitRow};
use ff_net::{Net, Path, Sched};
use ff_rec::NoMemory;

/// Lays a farm: its deal, its workers, and its merge.
#[cycle(laying)]
pub(crate) fn lay_farm<N>(
    workers: u32,
    sched: Sched,
    worker: &Net<N>,
    at: &Path,
    span: Span,
    units: &mut Vec<UnitRow>,
) -> Result<u32, NoMemory>
    requires room { length at.now + depth (tree_of worker.now) < 16 }
    requires few { span.inner + (workers * inner_edges (tree_of worker.now) + 2 * workers) ≤ 2048 }
    ensures rows { OnOk result (units.new.items ≡ units.old.items
        ++ map (λ l. l.row) (lay at.now (Farm workers sched (tree_of worker.now)) span.from span.to span.inner)) }
    ensures next { IfOk result (λ next. next
        ≡ span.inner + (workers * inner_edges (tree_of worker.now) + 2 * workers)) }
{
    let tasks = span.inner;
    let answers = tasks + workers;
    add_deal(deal_kind(sched), span.from, tasks, workers, at, units)?;
    let inside = Span {
        from: tasks,
        to: answers,
        inner: tasks + 2 * workers,
    };
    let next = lay_workers(workers, worker, &at.down(1), inside, units)?;
    add_merge(UnitKind::Merge, answers, workers, span.to, at, units)?;
    Ok(next)
}

/// Lays an ordered farm. On demand its deal tells its picks to its merge over an edge of their own.
#[cycle(laying)]
pub(crate) fn lay_ofarm<N>(
    workers: u32,
    sched: Sched,
    worker: &Net<N>,
    at: &Path,
    span: Span,
    units: &mut Vec<UnitRow>,
) -> Result<u32, NoMemory>
    requires room { length at.now + depth (tree_of worker.now) < 16 }
    requires few { span.inner + (workers * inner_edges (tree_of worker.now) + 2 * workers + pick_edges sched) ≤ 2048 }
    ensures rows { OnOk result (units.new.items ≡ units.old.items
        ++ map (λ l. l.row) (lay at.now (OFarm workers sched (tree_of worker.now)) span.from span.to span.inner)) }
    ensures next { IfOk result (λ next. next
        ≡ span.inner + (workers * inner_edges (tree_of worker.now) + 2 * workers + pick_edges sched)) }
{
    let tasks = span.inner;
    let answers = tasks + workers;
    let picks = tasks + 2 * workers;
    add_odeal(sched, span.from, tasks, workers, picks, at, units)?;
    let behind_picks = Span {
        from: tasks,
        to: answers,
        inner: picks + pick_edges(sched),
    };
    let next = lay_workers(workers, worker, &at.down(1), behind_picks, units)?;
    add_omerge(sched, answers, workers, picks, span.to, at, units)?;
    Ok(next)
}

// Lays the workers of a farm, worker k from edge `from` + k to edge `to` + k.
#[cycle(laying)]
fn lay_workers<N>(
    workers: u32,
    worker: &Net<N>,
    at: &Path,
    span: Span,
    units: &mut Vec<UnitRow>,
) -> Result<u32, NoMemory>
    requires room { length at.now + depth (tree_of worker.now) ≤ 16 }
    requires few { span.inner + workers * inner_edges (tree_of worker.now) ≤ 2048 }
    requires ins { span.from + workers ≤ 4096 }
    requires outs { span.to + workers ≤ 4096 }
    ensures rows { OnOk result (units.new.items ≡ units.old.items
        ++ map (λ l. l.row) (lay_copies (lay at.now (tree_of worker.now))
        (inner_edges (tree_of worker.now)) span.from span.to span.inner workers)) }
    ensures next { IfOk result (λ next. next ≡ span.inner + workers * inner_edges (tree_of worker.now)) }
{
    let mut inner = span.inner;
    for k in 0..workers {
        let inside = Span {
            from: span.from + k,
            to: span.to + k,
            inner,
        };
        inner = lay(worker, at, inside, units)?;
    }
    Ok(inner)
}
