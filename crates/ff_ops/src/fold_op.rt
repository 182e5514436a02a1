// Operations that send at the end alone: their arguments and their states.
ghost use Rattle.std.specs.Prelude.{◌≡◌, ◌≤◌, ◌^◌, ◌-ℤ◌, pos, min};
ghost use Rattle.ff_ops.specs.FoldOps.{above, below, capped_sum, lesser, greater, fold_field, fold_next, fold_last, fold_opening, one_number, KeepsOrRejects};

use ff_rec::Record;

// The sums of `total` stand still here.
const MOST: u128 = 1 << 126;

/// A fold over all records.
#[derive(Clone, Copy, Debug, PartialEq, Eq)]
pub enum FoldOp {
    /// How many records there were.
    Tally(u64),
    /// The sum of the numbers above 0, and that of the absolute values of those below.
    Total(usize, u128, u128),
    /// The least number, if there was one.
    Min(usize, Option<i64>),
    /// The greatest number, if there was one.
    Max(usize, Option<i64>),
}

impl FoldOp {
    /// Takes a record into the state, unless it is to be rejected.
    pub fn take(&mut self, r: &Record) -> bool
        ensures state { self.new ≡ fold_next self.old r.now }
        ensures taken { KeepsOrRejects self.old r.now result }
        ensures kind { fold_opening self.new ≡ fold_opening self.old }
    {
        match self {
            FoldOp::Tally(count) => {
                *count = count.saturating_add(1);
                true
            }
            FoldOp::Total(field, plus, minus) => match r.number(*field) {
                Some(x) => {
                    *plus = add_capped(*plus, above(x));
                    *minus = add_capped(*minus, below(x));
                    true
                }
                None => false,
            },
            FoldOp::Min(field, least) => match r.number(*field) {
                Some(x) => {
                    *least = Some(lesser(*least, x));
                    true
                }
                None => false,
            },
            FoldOp::Max(field, most) => match r.number(*field) {
                Some(x) => {
                    *most = Some(greater(*most, x));
                    true
                }
                None => false,
            },
        }
    }

    /// The number that is sent at the end, if any.
    pub fn last(&self) -> Option<i128>
        ensures { fold_last self.now ≡ one_number result }
    {
        match self {
            FoldOp::Tally(count) => Some(i128::from(*count)),
            FoldOp::Total(_, plus, minus) => Some(difference(*plus, *minus)),
            FoldOp::Min(_, None) | FoldOp::Max(_, None) => None,
            FoldOp::Min(_, Some(x)) | FoldOp::Max(_, Some(x)) => Some(i128::from(*x)),
        }
    }

    /// The state before the first record.
    pub fn opening(&self) -> FoldOp
        ensures { result ≡ fold_opening self.now }
    {
        match self {
            FoldOp::Tally(_) => FoldOp::Tally(0),
            FoldOp::Total(field, _, _) => FoldOp::Total(*field, 0, 0),
            FoldOp::Min(field, _) => FoldOp::Min(*field, None),
            FoldOp::Max(field, _) => FoldOp::Max(*field, None),
        }
    }
}

/// A sum that stands still at the most.
pub(crate) fn add_capped(sum: u128, more: u64) -> u128
    ensures { result ≡ capped_sum sum more }
{
    sum.saturating_add(u128::from(more)).min(MOST)
}

/// What a number adds to the sum of those above 0.
pub(crate) fn above(x: i64) -> u64
    ensures { result ≡ above x }
{
    if x < 0 { 0 } else { x.unsigned_abs() }
}

/// What it adds to the sum of the absolute values of those below.
pub(crate) fn below(x: i64) -> u64
    ensures { result ≡ below x }
{
    if x < 0 { x.unsigned_abs() } else { 0 }
}

/// The one sum less the other, each at most the most.
pub(crate) fn difference(plus: u128, minus: u128) -> i128
    ensures { result ≡ pos (min plus (2 ^ 126)) -ℤ pos (min minus (2 ^ 126)) }
{
    plus.min(MOST) as i128 - minus.min(MOST) as i128
}

// The lesser of a number and what was seen before.
fn lesser(least: Option<i64>, x: i64) -> i64
    ensures { result ≡ lesser least x }
{
    match least {
        Some(least) if least <= x => least,
        _ => x,
    }
}

// The greater of a number and what was seen before.
fn greater(most: Option<i64>, x: i64) -> i64
    ensures { result ≡ greater most x }
{
    match most {
        Some(most) if x <= most => most,
        _ => x,
    }
}
