// What holds of the rules, whatever functions keep them. Of each rule: divided and combined, at
// every cut, a part gives what is said of the whole part; and so it does in whatever order its
// parts are answered.
ghost use Rattle.ff_dc.specs.Dividing.{DividingLaw, LevelsLaw};
ghost use Rattle.ff_dc.specs.Divisions.{AnyOrderLaw};

use crate::DcRule;

/// The law of the numbers of Fibonacci.
pub fn fib_by_parts_is_of_the_whole()
    ensures whole { DividingLaw DcRule.Fib }
    ensures levels { LevelsLaw DcRule.Fib }
    ensures any_order { AnyOrderLaw DcRule.Fib }
{}

/// The law of sums.
pub fn sum_by_parts_is_of_the_whole()
    ensures whole { DividingLaw DcRule.Sum }
    ensures levels { LevelsLaw DcRule.Sum }
    ensures any_order { AnyOrderLaw DcRule.Sum }
{}

/// The law of the greatest sum of neighbours.
pub fn maxsub_by_parts_is_of_the_whole()
    ensures whole { DividingLaw DcRule.MaxSub }
    ensures levels { LevelsLaw DcRule.MaxSub }
    ensures any_order { AnyOrderLaw DcRule.MaxSub }
{}

/// The law of the first of the least numbers.
pub fn firstmin_by_parts_is_of_the_whole()
    ensures whole { DividingLaw DcRule.FirstMin }
    ensures levels { LevelsLaw DcRule.FirstMin }
    ensures any_order { AnyOrderLaw DcRule.FirstMin }
{}

/// The law of brackets.
pub fn bracket_by_parts_is_of_the_whole()
    ensures whole { DividingLaw DcRule.Bracket }
    ensures levels { LevelsLaw DcRule.Bracket }
    ensures any_order { AnyOrderLaw DcRule.Bracket }
{}
