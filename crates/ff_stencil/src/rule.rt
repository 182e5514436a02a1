// How a cell is made anew.
ghost use Rattle.std.specs.Prelude.{◌≡◌, [], ◌∷◌, ◌++◌, not, OnOk, IfOk, pos, ◌+ℤ◌, ◌*ℤ◌, int_div};
ghost use Rattle.ff_stencil.specs.Cells.{new_cell, past_end, same};

use ff_dc::Numbers;
use ff_rec::NoMemory;

/// How a cell is made anew from itself and its two neighbours.
#[derive(Clone, Copy, Debug, PartialEq, Eq)]
pub enum StencilRule {
    /// The mean of the three, in which the cell itself counts twice, rounded towards zero.
    Smooth,
    /// The greatest of the three.
    Max,
    /// 1 where exactly one of the neighbours is odd, else 0.
    Parity,
}

impl StencilRule {
    /// The new cell for `c` between `l` and `r`.
    pub fn new_cell(self, l: i64, c: i64, r: i64) -> i64
        ensures { result ≡ new_cell self l c r }
    {
        match self {
            StencilRule::Smooth => mean(l, c, r),
            StencilRule::Max => l.max(c).max(r),
            StencilRule::Parity => i64::from((l % 2 == 0) != (r % 2 == 0)),
        }
    }

    /// What stands beside the first or the last cell `c`, past the end of the line.
    pub fn past_end(self, c: i64) -> i64
        ensures { result ≡ past_end self c }
    {
        match self {
            StencilRule::Smooth | StencilRule::Max => c,
            StencilRule::Parity => 0,
        }
    }

    /// Adds the new cell for `c` between `l` and `r`, and answers whether it changed.
    pub(crate) fn add_new_cell(
        self,
        l: i64,
        c: i64,
        r: i64,
        into: &mut Numbers,
    ) -> Result<bool, NoMemory>
        ensures cell { OnOk result (into.new ≡ into.old ++ new_cell self l c r ∷ []) }
        ensures changed { IfOk result (λ b. b ≡ not (same (new_cell self l c r) c)) }
    {
        let new = self.new_cell(l, c, r);
        into.push(new)?;
        Ok(new != c)
    }
}

// The mean of a cell and its neighbours, in which the cell itself counts twice, rounded towards
// zero.
fn mean(l: i64, c: i64, r: i64) -> i64
    ensures { result ≡ int_div ((l +ℤ (pos 2 *ℤ c)) +ℤ r) (pos 4) }
{
    (weighed(l, c, r) / 4) as i64
}

// Their sum, in which the cell itself counts twice.
fn weighed(l: i64, c: i64, r: i64) -> i128
    ensures { result ≡ (l +ℤ (pos 2 *ℤ c)) +ℤ r }
{
    i128::from(l) + 2 * i128::from(c) + i128::from(r)
}
