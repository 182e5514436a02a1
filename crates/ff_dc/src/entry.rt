// A rule with the functions that keep it.
ghost use Rattle.std.specs.Prelude.{◌≡◌};
ghost use Rattle.ff_dc.specs.Keeping.{TellsSmall, AnswersAtOnce, Divides, Combines};
ghost use Rattle.ff_dc.specs.Spans.{is_small};
ghost use Rattle.ff_dc.specs.Rules.{value, divided, combined};

use crate::dividing::slices_are_short;
use crate::four::fours_are_within;
use crate::part::parts_are_spans;
use crate::{DcRule, Four, Numbers, Part};

type Cond = fn(Part, u32) -> bool;

type Seq = fn(&[i64], Part) -> Four;

type Divide = fn(Part) -> (Part, Part);

type Combine = fn(Four, Four) -> Four;

/// A rule, and four functions that answer what it says.
#[derive(Clone, Copy)]
pub struct DcEntry {
    pub rule: DcRule,
    cond: Cond,
    seq: Seq,
    divide: Divide,
    combine: Combine,
    ghost cond_keeps: { TellsSmall (Cond.pre cond) (Cond.post cond) },
    ghost seq_keeps: { AnswersAtOnce rule (Seq.pre seq) (Seq.post seq) },
    ghost divide_keeps: { Divides rule (Divide.pre divide) (Divide.post divide) },
    ghost combine_keeps: { Combines rule (Combine.pre combine) (Combine.post combine) },
}

impl DcEntry {
    /// The rule with these functions, each of which must keep it.
    pub fn new(rule: DcRule, cond: Cond, seq: Seq, divide: Divide, combine: Combine) -> DcEntry
        requires cond { TellsSmall (Cond.pre cond) (Cond.post cond) }
        requires seq { AnswersAtOnce rule (Seq.pre seq) (Seq.post seq) }
        requires divide { Divides rule (Divide.pre divide) (Divide.post divide) }
        requires combine { Combines rule (Combine.pre combine) (Combine.post combine) }
        ensures { result.rule ≡ rule }
    {
        DcEntry {
            rule,
            cond,
            seq,
            divide,
            combine,
        }
    }

    /// Whether a part is small enough to be answered at once.
    pub fn is_small(&self, part: Part, cut: u32) -> bool
        ensures { result ≡ is_small part cut }
    {
        parts_are_spans(&part);
        (self.cond)(part, cut)
    }

    /// The values of a part at once, from its numbers.
    pub fn at_once(&self, numbers: &Numbers, part: Part) -> Four
        ensures { result ≡ value self.now.rule numbers.now part }
    {
        parts_are_spans(&part);
        let ns = numbers.as_slice();
        slices_are_short(ns);
        (self.seq)(ns, part)
    }

    /// The two parts of a part.
    pub fn divide(&self, part: Part) -> (Part, Part)
        ensures { result ≡ divided self.now.rule part }
    {
        parts_are_spans(&part);
        (self.divide)(part)
    }

    /// The values of a part, from those of its two parts in their order.
    pub fn combine(&self, left: Four, right: Four) -> Four
        ensures { result ≡ combined self.now.rule left right }
    {
        fours_are_within(&left);
        fours_are_within(&right);
        (self.combine)(left, right)
    }
}
