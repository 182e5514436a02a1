// When a part is small enough, how it is divided, and which numbers stand in it.
ghost use Rattle.std.specs.Prelude.{◌≡◌, ◌<◌, ◌^◌, length};
ghost use Rattle.ff_dc.specs.Spans.{is_small, halves, befores, within};

use crate::Part;

/// Whether the part is of at most this size.
pub fn is_small_part(part: Part, cut: u32) -> bool
    ensures { result ≡ is_small part cut }
{
    part.hi - part.lo <= cut
}

/// The part, cut at half its size, rounded down: for ranges of places.
pub fn halve(part: Part) -> (Part, Part)
    ensures { result ≡ halves part }
{
    let mid = part.lo + (part.hi - part.lo) / 2;
    (
        Part {
            lo: part.lo,
            hi: mid,
        },
        Part {
            lo: mid,
            hi: part.hi,
        },
    )
}

/// The parts of the two numbers before `hi`: for `Fib`. Where there are none, the part itself and
/// an empty one.
pub fn two_before(part: Part) -> (Part, Part)
    ensures { result ≡ befores part }
{
    if part.lo == 0 && part.hi >= 2 {
        (
            Part {
                lo: 0,
                hi: part.hi - 1,
            },
            Part {
                lo: 0,
                hi: part.hi - 2,
            },
        )
    } else {
        (
            part,
            Part {
                lo: part.hi,
                hi: part.hi,
            },
        )
    }
}

/// The numbers at the places of a part, as far as there are numbers.
pub(crate) fn numbers_of(ns: &[i64], part: Part) -> &[i64]
    ensures { result.now ≡ within ns.now part }
{
    let lo = (part.lo as usize).min(ns.len());
    let hi = (part.hi as usize).min(ns.len());
    &ns[lo..hi]
}

/// How long a slice of numbers can be.
pub(crate) fn slices_are_short(ns: &[i64])
    ensures { length ns.now < 2 ^ 63 }
{
    let _n = ns.len();
}
