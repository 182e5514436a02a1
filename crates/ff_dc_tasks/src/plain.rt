// The plain functions of each rule.
ghost use Rattle.std.specs.Prelude.{◌≡◌};

use crate::RuleFunctions;
use ff_dc::{
    DcRule, Four, Numbers, Part, add_firsts, bracket_at_once, fib_at_once, first_least,
    firstmin_at_once, halve, is_small_part, join_runs, maxsub_at_once, meet_brackets, sum_at_once,
    two_before,
};

/// The plain functions of a rule.
#[derive(Clone, Copy, Debug, Drop)]
pub struct PlainFunctions {
    pub rule: DcRule,
}

impl PlainFunctions {
    /// Those of this rule.
    pub fn of(rule: DcRule) -> PlainFunctions
        ensures { result.rule ≡ rule }
    {
        PlainFunctions { rule }
    }
}

impl RuleFunctions for PlainFunctions {
    ghost rule = { λ functions. functions.rule };

    fn is_small(&self, part: Part, cut: u32) -> bool {
        is_small_part(part, cut)
    }

    fn at_once(&self, numbers: &Numbers, part: Part) -> Four {
        let ns = numbers.as_slice();
        match self.rule {
            DcRule::Fib => fib_at_once(ns, part),
            DcRule::Sum => sum_at_once(ns, part),
            DcRule::MaxSub => maxsub_at_once(ns, part),
            DcRule::FirstMin => firstmin_at_once(ns, part),
            DcRule::Bracket => bracket_at_once(ns, part),
        }
    }

    fn divide(&self, part: Part) -> (Part, Part) {
        match self.rule {
            DcRule::Fib => two_before(part),
            DcRule::Sum | DcRule::MaxSub | DcRule::FirstMin | DcRule::Bracket => halve(part),
        }
    }

    fn combine(&self, left: Four, right: Four) -> Four {
        match self.rule {
            DcRule::Fib | DcRule::Sum => add_firsts(left, right),
            DcRule::MaxSub => join_runs(left, right),
            DcRule::FirstMin => first_least(left, right),
            DcRule::Bracket => meet_brackets(left, right),
        }
    }
}
