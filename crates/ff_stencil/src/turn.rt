// One turn over the whole line.
ghost use Rattle.std.specs.Prelude.{◌≡◌, ◌<◌, ◌^◌, length, IfOk};
ghost use Rattle.ff_stencil.specs.Cells.{turned, changes, left, right};

use crate::StencilRule;
use ff_dc::Numbers;
use ff_rec::NoMemory;

/// Makes each cell anew into `next`, and counts those that changed.
pub(crate) fn turn(rule: StencilRule, cells: &[i64], next: &mut Numbers) -> Result<usize, NoMemory>
    ensures cells { IfOk result (λ n. next.new ≡ turned rule cells.now) }
    ensures count { IfOk result (λ n. n ≡ changes rule cells.now) }
{
    next.clear();
    let mut changed = 0;
    for (i, c) in cells.iter().enumerate() {
        let l = left_of(rule, cells, i);
        let r = right_of(rule, cells, i);
        changed += usize::from(rule.add_new_cell(l, *c, r, next)?);
    }
    Ok(changed)
}

// The left neighbour of cell `i`.
fn left_of(rule: StencilRule, cells: &[i64], i: usize) -> i64
    requires { i < length cells.now }
    ensures { result ≡ left rule cells.now i }
{
    if i == 0 {
        rule.past_end(cells[0])
    } else {
        cells[i - 1]
    }
}

// The right neighbour of cell `i`.
fn right_of(rule: StencilRule, cells: &[i64], i: usize) -> i64
    requires { i < length cells.now }
    ensures { result ≡ right rule cells.now i }
{
    match cells.get(i + 1) {
        Some(r) => *r,
        None => rule.past_end(cells[i]),
    }
}
