// The table of all stored functions.
ghost use Rattle.std.specs.Prelude.{◌≡◌};
ghost use Rattle.ff_fn.specs.declared.maps.MapRule.TheVariants.{Digits, Collatz, Isqrt};
ghost use Rattle.ff_fn.specs.declared.predicates.TestRule.TheVariants.{Square};
ghost use Rattle.ff_fn.specs.declared.folds.FoldRule.TheVariants.{Gcd, Xor};

use crate::{FoldEntry, FoldRule, MapEntry, MapRule, TestEntry, TestRule};

/// An entry for each rule. A program makes it of the plain functions of this crate, or of its own.
#[derive(Clone, Copy)]
pub struct FnTable {
    pub digits: MapEntry,
    pub collatz: MapEntry,
    pub isqrt: MapEntry,
    pub square: TestEntry,
    pub gcd: FoldEntry,
    pub xor: FoldEntry,
    ghost digits_is: { digits.rule ≡ Digits },
    ghost collatz_is: { collatz.rule ≡ Collatz },
    ghost isqrt_is: { isqrt.rule ≡ Isqrt },
    ghost square_is: { square.rule ≡ Square },
    ghost gcd_is: { gcd.rule ≡ Gcd },
    ghost xor_is: { xor.rule ≡ Xor },
}
