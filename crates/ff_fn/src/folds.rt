// Folds: what becomes of a state by a number.
ghost use Rattle.std.specs.Prelude.{◌≡◌};
ghost use Rattle.ff_fn.specs.Rules.{fold_value, IsState};
ghost use Rattle.ff_fn.specs.Keeping.{KeepsFold};

/// A rule of folds. Each begins at the state 0.
#[derive(Clone, Copy, Debug, PartialEq, Eq)]
pub enum FoldRule {
    /// The greatest common divisor of the state and the number. States are from 0 to 2^63.
    Gcd,
    /// The bits in which the state and the number differ, as 64 bits with a sign. States are those
    /// of 64 bits.
    Xor,
}

type Fold = fn(i128, i64) -> i128;

/// A rule of folds, with a function that keeps it.
#[derive(Clone, Copy)]
pub struct FoldEntry {
    pub rule: FoldRule,
    f: Fold,
    ghost keeps: { KeepsFold rule (Fold.pre f) (Fold.post f) },
}

impl FoldEntry {
    /// The rule with this function, which must keep it in every state of the rule.
    pub fn new(rule: FoldRule, f: Fold) -> FoldEntry
        requires { KeepsFold rule (Fold.pre f) (Fold.post f) }
        ensures { result.rule ≡ rule }
    {
        FoldEntry { rule, f }
    }

    /// The state after a number, by the rule.
    pub fn answer(&self, state: i128, x: i64) -> i128
        requires { IsState self.now.rule state }
        ensures value { result ≡ fold_value self.now.rule state x }
        ensures stays { IsState self.now.rule result }
    {
        (self.f)(state, x)
    }
}

/// The greatest common divisor of the state and the absolute value of the number, by Euclid; of 0
/// and 0 it is 0.
pub fn gcd(state: i128, x: i64) -> i128
    requires { IsState FoldRule.Gcd state }
    ensures { result ≡ fold_value FoldRule.Gcd state x }
{
    let mut a = state.unsigned_abs() as u64;
    let mut b = x.unsigned_abs();
    while b != 0 {
        let rest = a % b;
        a = b;
        b = rest;
    }
    a as i128
}

/// The bitwise exclusive or of the state and the number.
pub fn xor(state: i128, x: i64) -> i128
    requires { IsState FoldRule.Xor state }
    ensures { result ≡ fold_value FoldRule.Xor state x }
{
    (state as i64 ^ x) as i128
}
