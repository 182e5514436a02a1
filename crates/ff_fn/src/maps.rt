// Maps: what becomes of a number.
ghost use Rattle.std.specs.Prelude.{◌≡◌};
ghost use Rattle.ff_fn.specs.Rules.{map_value};
ghost use Rattle.ff_fn.specs.Keeping.{KeepsMap};

/// A rule of maps.
#[derive(Clone, Copy, Debug, PartialEq, Eq)]
pub enum MapRule {
    /// The sum of the decimal digits of the absolute value.
    Digits,
    /// Half of an even number, else three times the number and 1; none below 1, and where that
    /// passes 64 bits.
    Collatz,
    /// The square root, rounded down; none below 0.
    Isqrt,
}

type Map = fn(i64) -> Option<i64>;

/// A rule of maps, with a function that keeps it.
#[derive(Clone, Copy)]
pub struct MapEntry {
    pub rule: MapRule,
    f: Map,
    ghost keeps: { KeepsMap rule (Map.pre f) (Map.post f) },
}

impl MapEntry {
    /// The rule with this function, which must keep it.
    pub fn new(rule: MapRule, f: Map) -> MapEntry
        requires { KeepsMap rule (Map.pre f) (Map.post f) }
        ensures { result.rule ≡ rule }
    {
        MapEntry { rule, f }
    }

    /// What the rule makes of a number.
    pub fn answer(&self, x: i64) -> Option<i64>
        ensures { result ≡ map_value self.now.rule x }
    {
        (self.f)(x)
    }
}

/// The sum of the decimal digits of the absolute value.
pub fn digits(x: i64) -> Option<i64>
    ensures { result ≡ map_value MapRule.Digits x }
{
    let mut rest = x.unsigned_abs();
    let mut total: u64 = 0;
    while rest != 0 {
        total += rest % 10;
        rest /= 10;
    }
    Some(total as i64)
}

/// The next number of the Collatz sequence; none below 1, and where that passes 64 bits.
pub fn collatz(x: i64) -> Option<i64>
    ensures { result ≡ map_value MapRule.Collatz x }
{
    if x < 1 {
        return None;
    }
    if x % 2 == 0 {
        Some(x / 2)
    } else {
        x.checked_mul(3)?.checked_add(1)
    }
}

/// The greatest number whose square isn't above this one; none below 0.
pub fn isqrt(x: i64) -> Option<i64>
    ensures { result ≡ map_value MapRule.Isqrt x }
{
    if x < 0 {
        return None;
    }
    Some(x.isqrt())
}
