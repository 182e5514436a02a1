// The table of operations: what names each row in a text, and what its arguments are.
ghost use Rattle.std.specs.Prelude.{◌≡◌};
ghost use Rattle.ff_ops.specs.Table.{name_of, kinds_of};

use crate::{ArgKind, Row};

const FIELD: &[ArgKind] = &[ArgKind::Field];

const TWO_FIELDS: &[ArgKind] = &[ArgKind::Field, ArgKind::Field];

const FIELD_AND_NUMBER: &[ArgKind] = &[ArgKind::Field, ArgKind::Num];

const FIELD_AND_DIVISOR: &[ArgKind] = &[ArgKind::Field, ArgKind::NonZero];

const FIELD_AND_TEXT: &[ArgKind] = &[ArgKind::Field, ArgKind::Text];

const COMPARISON: &[ArgKind] = &[ArgKind::Field, ArgKind::Cmp, ArgKind::Num];

const COPIES: &[ArgKind] = &[ArgKind::Count { low: 1, high: 64 }];

const TAKEN: &[ArgKind] = &[ArgKind::Count {
    low: 1,
    high: 1_000_000_000,
}];

const SKIPPED: &[ArgKind] = &[ArgKind::Count {
    low: 0,
    high: 1_000_000_000,
}];

impl Row {
    /// The word that names it, and what its arguments are, in their order.
    pub(crate) fn signature(self) -> (&'static [u8], &'static [ArgKind])
        ensures name { result.0.now ≡ name_of self }
        ensures kinds { result.1.now ≡ kinds_of self }
    {
        match self {
            Row::Id => (b"id", &[]),
            Row::Add => (b"add", FIELD_AND_NUMBER),
            Row::Sub => (b"sub", FIELD_AND_NUMBER),
            Row::Mul => (b"mul", FIELD_AND_NUMBER),
            Row::Div => (b"div", FIELD_AND_DIVISOR),
            Row::Rem => (b"rem", FIELD_AND_DIVISOR),
            Row::Neg => (b"neg", FIELD),
            Row::Set => (b"set", FIELD_AND_TEXT),
            Row::Keep => (b"keep", FIELD),
            Row::Drop => (b"drop", FIELD),
            Row::Swap => (b"swap", TWO_FIELDS),
            Row::Copy => (b"copy", FIELD),
            Row::Len => (b"len", FIELD),
            Row::Upper => (b"upper", FIELD),
            Row::Lower => (b"lower", FIELD),
            Row::If => (b"if", COMPARISON),
            Row::IfEq => (b"ifeq", FIELD_AND_TEXT),
            Row::Has => (b"has", FIELD_AND_TEXT),
            Row::Words => (b"words", FIELD),
            Row::Dup => (b"dup", COPIES),
            Row::Halve => (b"halve", FIELD),
            Row::Plus => (b"plus", TWO_FIELDS),
            Row::Number => (b"number", &[]),
            Row::RunSum => (b"runsum", FIELD),
            Row::Delta => (b"delta", FIELD),
            Row::Take => (b"take", TAKEN),
            Row::Skip => (b"skip", SKIPPED),
            Row::Uniq => (b"uniq", FIELD),
            Row::Tally => (b"tally", &[]),
            Row::Total => (b"total", FIELD),
            Row::Min => (b"min", FIELD),
            Row::Max => (b"max", FIELD),
            Row::TallyBy => (b"tallyby", FIELD),
            Row::TotalBy => (b"totalby", TWO_FIELDS),
        }
    }
}
