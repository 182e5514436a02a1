// A part of the numbers, or of the number that is asked for.
ghost use Rattle.ff_dc.specs.Spans.{IsSpan};

use std::marker::Model;

/// The places from `lo` up to `hi`, which is left out. Places are counted from 0.
#[derive(Clone, Copy, Debug, Drop)]
pub struct Part {
    pub lo: u32,
    pub hi: u32,
}

impl Model for Part {
    ghost use Rattle.std.specs.Prelude.{ℕ, ◌≤◌};

    ghost Value = { ℕ × ℕ };

    ghost view = { λ p. (p.lo, p.hi) };

    ghost invariant = { λ p. p.lo ≤ p.hi };

    ghost inverse = { λ v. record { lo = v.0; hi = v.1 } };
}

/// What a `Part` is, said of its two ends.
pub(crate) fn parts_are_spans(part: &Part)
    ensures { IsSpan part.now }
{
    let _lo = part.lo;
    let _hi = part.hi;
}
