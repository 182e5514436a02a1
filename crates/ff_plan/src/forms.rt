// How forms are laid in which no network stands that has edges of its own.
ghost use Rattle.std.specs.Prelude.{◌≡◌, ◌+◌, ◌*◌, ◌≤◌, ◌<◌, ◌++◌, ◌∷◌, [], length, OnOk, IfOk};
ghost use Rattle.ff_plan.specs.AlikeRows.{row_of, set_rows, wrap_rows};

use crate::edge_numbers::{one, range};
use crate::span::Span;
use crate::units::{add_column_merges, add_copies, add_deal, add_merge, add_row_deals, add_unit};
use crate::{UnitKind, UnitRow};
use ff_net::Path;
use ff_rec::NoMemory;

/// Lays a leaf or comb.
pub(crate) fn lay_stage(at: &Path, span: Span, units: &mut Vec<UnitRow>) -> Result<u32, NoMemory>
    ensures rows { OnOk result (units.new.items ≡ units.old.items
        ++ row_of UnitKind.Stage (span.from ∷ []) (span.to ∷ []) at.now ∷ []) }
    ensures next { IfOk result (λ next. next ≡ span.inner) }
{
    let alloc = *units.allocator();
    let ins = one(alloc, span.from)?;
    add_unit(UnitKind::Stage, ins, one(alloc, span.to)?, at, units)?;
    Ok(span.inner)
}

/// Lays an all-to-all. Its edges go from the first deal to the left set, from there to the deals, row by row to the merges, on
/// to the right set, and to the last merge.
pub(crate) fn lay_sets(
    left: u32,
    kind: UnitKind,
    right: u32,
    at: &Path,
    span: Span,
    units: &mut Vec<UnitRow>,
) -> Result<u32, NoMemory>
    requires room { length at.now < 16 }
    requires few { span.inner + (2 * left + left * right + 2 * right) ≤ 2048 }
    ensures rows { OnOk result (units.new.items ≡ units.old.items
        ++ (let c = span.inner + 2 * left in
        let d = c + left * right in
        set_rows at.now left kind right span.from span.to span.inner (span.inner + left) c d (d + right))) }
    ensures next { IfOk result (λ next. next ≡ span.inner + (2 * left + left * right + 2 * right)) }
{
    let to_left = span.inner;
    let to_deals = to_left + left;
    let to_merges = to_left + 2 * left;
    let to_right = to_merges + left * right;
    let to_last = to_right + right;
    add_deal(UnitKind::DealRr, span.from, to_left, left, at, units)?;
    add_copies(UnitKind::Stage, &at.down(1), to_left, to_deals, left, units)?;
    add_row_deals(kind, at, right, to_deals, to_merges, left, units)?;
    add_column_merges(at, left, right, to_merges, to_right, units)?;
    add_copies(
        UnitKind::Stage,
        &at.down(2),
        to_right,
        to_last,
        right,
        units,
    )?;
    add_merge(UnitKind::Merge, to_last, right, span.to, at, units)?;
    Ok(to_last + right)
}

/// Lays a wrap: its master, and its workers.
pub(crate) fn lay_wrap(
    workers: u32,
    at: &Path,
    span: Span,
    units: &mut Vec<UnitRow>,
) -> Result<u32, NoMemory>
    requires room { length at.now < 16 }
    requires few { span.inner + 2 * workers ≤ 2048 }
    ensures rows { OnOk result (units.new.items ≡ units.old.items
        ++ wrap_rows at.now workers span.from span.to span.inner) }
    ensures next { IfOk result (λ next. next ≡ span.inner + 2 * workers) }
{
    let alloc = *units.allocator();
    let answers = span.inner + workers;
    let mut ins = one(alloc, span.from)?;
    ins.extend_from_slice(&range(alloc, answers, workers)?)?;
    let mut outs = range(alloc, span.inner, workers)?;
    outs.push(span.to)?;
    add_unit(UnitKind::Master, ins, outs, at, units)?;
    add_copies(
        UnitKind::Worker,
        &at.down(1),
        span.inner,
        answers,
        workers,
        units,
    )?;
    Ok(answers + workers)
}
