// The arithmetic of the rows: none where a result is out of range.
ghost use Rattle.std.specs.Prelude.{◌≡◌, ◌+ℤ◌, ◌-ℤ◌, ◌*ℤ◌, neg_ℤ};
ghost use Rattle.ff_ops.specs.NumberOps.{half, quotient, remainder};
ghost use Rattle.ff_ops.specs.Rows.{in_range};

/// The sum of two numbers.
pub(super) fn sum(x: i64, k: i64) -> Option<i64>
    ensures { result ≡ in_range (x +ℤ k) }
{
    x.checked_add(k)
}

/// A number less another.
pub(super) fn difference(x: i64, k: i64) -> Option<i64>
    ensures { result ≡ in_range (x -ℤ k) }
{
    x.checked_sub(k)
}

/// The product of two numbers.
pub(super) fn product(x: i64, k: i64) -> Option<i64>
    ensures { result ≡ in_range (x *ℤ k) }
{
    x.checked_mul(k)
}

/// The quotient towards zero; none for the divisor 0, too.
pub(super) fn quotient(x: i64, k: i64) -> Option<i64>
    ensures { result ≡ quotient k x }
{
    x.checked_div(k)
}

/// What the quotient leaves. It is in range even where the quotient isn't: the least number leaves 0 for -1.
pub(super) fn remainder(x: i64, k: i64) -> Option<i64>
    ensures { result ≡ remainder k x }
{
    if k == 0 {
        return None;
    }
    Some(x.wrapping_rem(k))
}

/// The negative of a number.
pub(super) fn negated(x: i64) -> Option<i64>
    ensures { result ≡ in_range (neg_ℤ x) }
{
    x.checked_neg()
}

/// Half of a number, rounded down, and the rest.
pub(super) fn halves(x: i64) -> (i64, i64)
    ensures first { result.0 ≡ half x }
    ensures rest { result.1 ≡ x -ℤ half x }
{
    let half = x.div_euclid(2);
    (half, x - half)
}
