// The values of a part from those of its two parts, by each rule.
ghost use Rattle.std.specs.Prelude.{◌≡◌, ◌+ℤ◌, ◌-ℤ◌, int_le};
ghost use Rattle.std.specs.Int.{int_max, int_min};
ghost use Rattle.ff_dc.specs.Fours.{IsWithin, at, clip};
ghost use Rattle.ff_dc.specs.Joining.{added, runs_joined, firsts_joined, is_some, loose_joined};

use crate::Four;
use crate::four::clipped;

/// The sum of the first values: for `Fib` and `Sum`.
pub fn add_firsts(left: Four, right: Four) -> Four
    ensures { result ≡ added left right }
{
    Four::new(clipped(left.get(0) + right.get(0)), 0, 0, 0)
}

/// The sum, and the greatest sums of a prefix, of a suffix and of neighbours: for `MaxSub`.
pub fn join_runs(left: Four, right: Four) -> Four
    ensures { result ≡ runs_joined left right }
{
    let sum = sum_of_two(left.get(0), right.get(0));
    let prefix = greater(left.get(1), left.get(0), right.get(1));
    let suffix = greater(right.get(2), right.get(0), left.get(2));
    let run = greatest(left.get(3), right.get(3), left.get(2), right.get(1));
    Four::new(sum, prefix, suffix, run)
}

/// The part with the first of the least numbers: for `FirstMin`.
pub fn first_least(left: Four, right: Four) -> Four
    ensures { result ≡ firsts_joined left right }
{
    if has_least(&left) && (is_at_most(&left, &right) || !has_least(&right)) {
        left
    } else {
        right
    }
}

fn has_least(four: &Four) -> bool
    ensures { result ≡ is_some four.now }
{
    let third = four.get(2);
    third <= 1 && 1 <= third
}

fn is_at_most(left: &Four, right: &Four) -> bool
    ensures { result ≡ int_le (at 0 left.now) (at 0 right.now) }
{
    left.get(0) <= right.get(0)
}

/// What is left once opening brackets of the left part met closing ones of the right part: for
/// `Bracket`.
pub fn meet_brackets(left: Four, right: Four) -> Four
    ensures { result ≡ loose_joined left right }
{
    let closes = less_met(left.get(0), right.get(0), left.get(1), right.get(0));
    let opens = less_met(right.get(1), left.get(1), left.get(1), right.get(0));
    Four::new(closes, opens, 0, 0)
}

fn sum_of_two(a: i128, b: i128) -> i128
    requires a { IsWithin a }
    requires b { IsWithin b }
    ensures value { result ≡ clip (a +ℤ b) }
    ensures within { IsWithin result }
{
    clipped(a + b)
}

fn greater(x: i128, a: i128, b: i128) -> i128
    requires a { IsWithin a }
    requires b { IsWithin b }
    ensures value { result ≡ clip (int_max x (a +ℤ b)) }
    ensures within { IsWithin result }
{
    clipped(x.max(a + b))
}

fn greatest(x: i128, y: i128, a: i128, b: i128) -> i128
    requires a { IsWithin a }
    requires b { IsWithin b }
    ensures value { result ≡ clip (int_max (int_max x y) (a +ℤ b)) }
    ensures within { IsWithin result }
{
    clipped(x.max(y).max(a + b))
}

fn less_met(a: i128, b: i128, opens: i128, closes: i128) -> i128
    requires a { IsWithin a }
    requires b { IsWithin b }
    requires opens { IsWithin opens }
    requires closes { IsWithin closes }
    ensures value { result ≡ clip (a +ℤ b -ℤ int_min opens closes) }
    ensures within { IsWithin result }
{
    let met = opens.min(closes);
    clipped(a + b - met)
}
