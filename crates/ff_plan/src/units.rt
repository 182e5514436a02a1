// Single units, and units beside one another that are alike.
ghost use Rattle.std.specs.Prelude.{◌≡◌, ◌+◌, ◌*◌, ◌≤◌, ◌++◌, ◌∷◌, [], OnOk};
ghost use Rattle.ff_plan.specs.AlikeRows.{row_of, copied_rows, deal_rows, merge_rows};
ghost use Rattle.ff_plan.specs.Rows.{range, stride};

use crate::edge_numbers::{one, range, stride};
use crate::{EdgeList, UnitKind, UnitRow};
use ff_net::Path;
use ff_rec::NoMemory;

/// Adds a unit.
pub(crate) fn add_unit(
    kind: UnitKind,
    ins: Vec<u32>,
    outs: Vec<u32>,
    at: &Path,
    units: &mut Vec<UnitRow>,
) -> Result<(), NoMemory>
    ensures { OnOk result
        (units.new.items ≡ units.old.items ++ row_of kind ins.items outs.items at.now ∷ []) }
{
    units.push(UnitRow {
        kind,
        ins: EdgeList::new(ins),
        outs: EdgeList::new(outs),
        path: at.same(),
    })?;
    Ok(())
}

/// Adds a deal from one edge to the `count` edges from `first` on.
pub(crate) fn add_deal(
    kind: UnitKind,
    from: u32,
    first: u32,
    count: u32,
    at: &Path,
    units: &mut Vec<UnitRow>,
) -> Result<(), NoMemory>
    requires { first + count ≤ 4096 }
    ensures { OnOk result
        (units.new.items ≡ units.old.items ++ row_of kind (from ∷ []) (range first count) at.now ∷ []) }
{
    let alloc = *units.allocator();
    let outs = range(alloc, first, count)?;
    add_unit(kind, one(alloc, from)?, outs, at, units)
}

/// Adds a merge of the `count` edges from `first` on to one edge.
pub(crate) fn add_merge(
    kind: UnitKind,
    first: u32,
    count: u32,
    to: u32,
    at: &Path,
    units: &mut Vec<UnitRow>,
) -> Result<(), NoMemory>
    requires { first + count ≤ 4096 }
    ensures { OnOk result
        (units.new.items ≡ units.old.items ++ row_of kind (range first count) (to ∷ []) at.now ∷ []) }
{
    let alloc = *units.allocator();
    let ins = range(alloc, first, count)?;
    add_unit(kind, ins, one(alloc, to)?, at, units)
}

/// Adds `count` units, unit k from edge `from` + k to edge `to` + k.
pub(crate) fn add_copies(
    kind: UnitKind,
    at: &Path,
    from: u32,
    to: u32,
    count: u32,
    units: &mut Vec<UnitRow>,
) -> Result<(), NoMemory>
    requires ins { from + count ≤ 4096 }
    requires outs { to + count ≤ 4096 }
    ensures { OnOk result
        (units.new.items ≡ units.old.items ++ copied_rows kind at.now from to count) }
{
    let alloc = *units.allocator();
    for k in 0..count {
        let ins = one(alloc, from + k)?;
        add_unit(kind, ins, one(alloc, to + k)?, at, units)?;
    }
    Ok(())
}

/// Adds `count` deals, deal k from edge `from` + k to row k of the edges from `first` on, `width` in each row.
pub(crate) fn add_row_deals(
    kind: UnitKind,
    at: &Path,
    width: u32,
    from: u32,
    first: u32,
    count: u32,
    units: &mut Vec<UnitRow>,
) -> Result<(), NoMemory>
    requires ins { from + count ≤ 4096 }
    requires outs { first + count * width ≤ 4096 }
    ensures { OnOk result
        (units.new.items ≡ units.old.items ++ deal_rows kind at.now width from first count) }
{
    let mut row = first;
    for k in 0..count {
        add_deal(kind, from + k, row, width, at, units)?;
        row += width;
    }
    Ok(())
}

/// Adds a merge for each column of the edges from `first` on, `rows` rows of `width`, to the edges from `to` on.
pub(crate) fn add_column_merges(
    at: &Path,
    rows: u32,
    width: u32,
    first: u32,
    to: u32,
    units: &mut Vec<UnitRow>,
) -> Result<(), NoMemory>
    requires ins { first + width + rows * width ≤ 4096 }
    requires outs { to + width ≤ 4096 }
    ensures { OnOk result
        (units.new.items ≡ units.old.items ++ merge_rows at.now rows width first to width) }
{
    let alloc = *units.allocator();
    for k in 0..width {
        let ins = stride(alloc, width, first + k, rows)?;
        add_unit(UnitKind::Merge, ins, one(alloc, to + k)?, at, units)?;
    }
    Ok(())
}
