// The values of a part at once, by each rule.
ghost use Rattle.std.specs.Prelude.{◌≡◌};
ghost use Rattle.ff_dc.specs.Rules.{fib_of, sum_of, maxsub_of, firstmin_of, bracket_of};
ghost use Rattle.ff_dc.specs.Spans.{within};

use crate::dividing::numbers_of;
use crate::four::clipped;
use crate::joining::first_least;
use crate::{Four, Part};

/// The number of Fibonacci at the size of the part, at 90 where it is greater.
pub fn fib_at_once(_ns: &[i64], part: Part) -> Four
    ensures { result ≡ fib_of part }
{
    let n = (part.hi - part.lo).min(90);
    let mut here: i128 = 0;
    let mut next: i128 = 1;
    for k in 0..n {
        let _at = k;
        let sum = next + here;
        here = next;
        next = sum;
    }
    Four::new(clipped(here), 0, 0, 0)
}

/// The sum of the numbers of a part.
pub fn sum_at_once(ns: &[i64], part: Part) -> Four
    ensures { result ≡ sum_of (within ns.now part) }
{
    let xs = numbers_of(ns, part);
    let mut sum: i128 = 0;
    for x in xs {
        sum += *x as i128;
    }
    Four::new(clipped(sum), 0, 0, 0)
}

/// Of the numbers of a part the sum, and the greatest sums of a prefix, of a suffix and of
/// neighbours.
pub fn maxsub_at_once(ns: &[i64], part: Part) -> Four
    ensures { result ≡ maxsub_of (within ns.now part) }
{
    let xs = numbers_of(ns, part);
    let mut sum: i128 = 0;
    let mut prefix: i128 = 0;
    let mut suffix: i128 = 0;
    let mut run: i128 = 0;
    for x in xs {
        let x = *x as i128;
        sum += x;
        prefix = prefix.max(sum);
        suffix = (suffix + x).max(0);
        run = run.max(suffix);
    }
    Four::new(clipped(sum), clipped(prefix), clipped(suffix), clipped(run))
}

/// The least number of a part, its first place from 1 in the whole list, and 1; all 0 where the
/// part is empty.
pub fn firstmin_at_once(ns: &[i64], part: Part) -> Four
    ensures { result ≡ firstmin_of part.0 (within ns.now part) }
{
    let xs = numbers_of(ns, part);
    let mut found = Four::new(0, 0, 0, 0);
    for (k, x) in xs.iter().enumerate() {
        let one = Four::new(*x as i128, part.lo as i128 + k as i128 + 1, 1, 0);
        found = first_least(found, one);
    }
    found
}

/// The closing brackets of a part without their opening one, and the opening ones without their
/// closing one.
pub fn bracket_at_once(ns: &[i64], part: Part) -> Four
    ensures { result ≡ bracket_of (within ns.now part) }
{
    let xs = numbers_of(ns, part);
    let mut closes: u64 = 0;
    let mut opens: u64 = 0;
    for x in xs {
        if *x == 40 {
            opens += 1;
        } else if *x == 41 {
            if opens == 0 {
                closes += 1;
            } else {
                opens -= 1;
            }
        }
    }
    Four::new(clipped(closes as i128), clipped(opens as i128), 0, 0)
}
