// Tests: whether a number passes.
ghost use Rattle.std.specs.Prelude.{◌≡◌, ◌↔◌, IsTrue, ℤ, ◌*ℤ◌};
ghost use Rattle.ff_fn.specs.Rules.{test_value};
ghost use Rattle.ff_fn.specs.Keeping.{KeepsTest};

/// A rule of tests.
#[derive(Clone, Copy, Debug, PartialEq, Eq)]
pub enum TestRule {
    /// The number is the square of a whole number.
    Square,
}

type Test = fn(i64) -> bool;

/// A rule of tests, with a function that keeps it.
#[derive(Clone, Copy)]
pub struct TestEntry {
    pub rule: TestRule,
    f: Test,
    ghost keeps: { KeepsTest rule (Test.pre f) (Test.post f) },
}

impl TestEntry {
    /// The rule with this function, which must keep it.
    pub fn new(rule: TestRule, f: Test) -> TestEntry
        requires { KeepsTest rule (Test.pre f) (Test.post f) }
        ensures { result.rule ≡ rule }
    {
        TestEntry { rule, f }
    }

    /// Whether a number passes by the rule.
    pub fn answer(&self, x: i64) -> bool
        ensures { result ≡ test_value self.now.rule x }
    {
        (self.f)(x)
    }
}

/// Whether some whole number has this one for its square.
pub fn square(x: i64) -> bool
    ensures value { result ≡ test_value TestRule.Square x }
    ensures plainly { IsTrue result ↔ ((r : ℤ) × (r *ℤ r ≡ x)) }
{
    if x < 0 {
        return false;
    }
    let n = x.unsigned_abs();
    let root = n.isqrt();
    root * root == n
}
