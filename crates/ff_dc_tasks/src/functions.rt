// The functions of a rule.
use ff_dc::{DcEntry, DcRule, Four, Numbers, Part};

/// Four functions that keep a rule: they answer what it says, as those of a `DcEntry` do. `run_dc`
/// carries them into threads.
pub trait RuleFunctions: Drop {
    ghost use Rattle.std.specs.Prelude.{◌≡◌};
    ghost use Rattle.ff_dc.specs.declared.rule.DcRule.{DcRule};
    ghost use Rattle.ff_dc.specs.Spans.{is_small};
    ghost use Rattle.ff_dc.specs.Rules.{value, divided, combined};

    /// The rule that they keep.
    ghost rule: { Self → DcRule };

    /// Whether a part is small enough to be answered at once.
    fn is_small(&self, part: Part, cut: u32) -> bool
        ensures { result ≡ is_small part cut };

    /// The values of a part at once, from its numbers.
    fn at_once(&self, numbers: &Numbers, part: Part) -> Four
        ensures { result ≡ value (rule self.now) numbers.now part };

    /// The two parts of a part.
    fn divide(&self, part: Part) -> (Part, Part)
        ensures { result ≡ divided (rule self.now) part };

    /// The values of a part, from those of its two parts in their order.
    fn combine(&self, left: Four, right: Four) -> Four
        ensures { result ≡ combined (rule self.now) left right };
}

impl RuleFunctions for DcEntry {
    ghost rule = { λ entry. entry.rule };

    fn is_small(&self, part: Part, cut: u32) -> bool {
        DcEntry::is_small(self, part, cut)
    }

    fn at_once(&self, numbers: &Numbers, part: Part) -> Four {
        DcEntry::at_once(self, numbers, part)
    }

    fn divide(&self, part: Part) -> (Part, Part) {
        DcEntry::divide(self, part)
    }

    fn combine(&self, left: Four, right: Four) -> Four {
        DcEntry::combine(self, left, right)
    }
}
