// The table of all rules.
ghost use Rattle.std.specs.Prelude.{◌≡◌};
ghost use Rattle.ff_dc.specs.declared.rule.DcRule.TheVariants.{Fib, Sum, MaxSub, FirstMin, Bracket};

use crate::{DcEntry, DcRule};

/// An entry for each rule. A program makes it of the plain functions of this crate, or of its own.
#[derive(Clone, Copy)]
pub struct DcTable {
    pub fib: DcEntry,
    pub sum: DcEntry,
    pub maxsub: DcEntry,
    pub firstmin: DcEntry,
    pub bracket: DcEntry,
    ghost fib_is: { fib.rule ≡ Fib },
    ghost sum_is: { sum.rule ≡ Sum },
    ghost maxsub_is: { maxsub.rule ≡ MaxSub },
    ghost firstmin_is: { firstmin.rule ≡ FirstMin },
    ghost bracket_is: { bracket.rule ≡ Bracket },
}
