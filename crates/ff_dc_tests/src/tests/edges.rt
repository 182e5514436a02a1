// Parts at the edge of what the plain functions are made for, and lists of numbers.
use super::{numbers_of, values};
use ff_dc::{
    Four, Part, fib_at_once, first_least, firstmin_at_once, halve, is_small_part, join_runs,
    sum_at_once, two_before,
};
use ff_rec::{Kept, NoMemory};
use std::alloc::Global;
use std::process::Abort;
use std::test::Fail;

// The ends of both parts.
fn ends(parts: (Part, Part)) -> [u32; 4] {
    [parts.0.lo, parts.0.hi, parts.1.lo, parts.1.hi]
}

#[test]
fn parts_are_divided(rt: HostRuntime) {
    for (lo, hi, halves, befores) in [
        (0, 0, [0, 0, 0, 0], [0, 0, 0, 0]),
        (0, 1, [0, 0, 0, 1], [0, 1, 1, 1]),
        (0, 2, [0, 1, 1, 2], [0, 1, 0, 0]),
        (0, 5, [0, 2, 2, 5], [0, 4, 0, 3]),
        (3, 8, [3, 5, 5, 8], [3, 8, 8, 8]),
    ] {
        let part = Part { lo, hi };
        let size = hi - lo;
        let seen = (
            ends(halve(part)),
            ends(two_before(part)),
            is_small_part(part, size),
            is_small_part(part, size + 1),
        );
        assert_eq!(rt; seen, (halves, befores, true, true), "at {lo} to {hi}");
    }
    assert!(rt; !is_small_part(Part { lo: 3, hi: 8 }, 4));
}

// What parts past three numbers give: sums, and least numbers.
fn past_the_numbers(alloc: Global) -> Result<[[i128; 4]; 4], NoMemory> {
    let numbers = numbers_of(alloc, &[5, -2, 7])?;
    let ns = numbers.as_slice();
    let beside = Part { lo: 1, hi: 9 };
    let behind = Part { lo: 7, hi: 9 };
    Ok([
        values(sum_at_once(ns, beside)),
        values(sum_at_once(ns, behind)),
        values(firstmin_at_once(ns, beside)),
        values(firstmin_at_once(ns, behind)),
    ])
}

#[test]
fn parts_are_cut_at_the_end_of_the_numbers(rt: HostRuntime) -> Result<(), Fail> {
    let seen = past_the_numbers(rt.alloc())?;
    let want = [[5, 0, 0, 0], [0, 0, 0, 0], [-2, 2, 1, 0], [0, 0, 0, 0]];
    assert_eq!(rt; seen, want);
    let large = Part { lo: 0, hi: 1_000 };
    assert_eq!(rt;
        values(fib_at_once(&[], large)),
        [2880067194370816120, 0, 0, 0]
    );
    Ok(())
}

#[test]
fn values_at_the_ends_and_of_nothing(rt: HostRuntime) {
    let end = 1i128 << 90;
    let greatest = Four::new(end, end, end, end);
    let none = Four::new(0, 0, 0, 0);
    let three = Four::new(3, 1, 1, 0);
    let seen = [
        values(join_runs(greatest, greatest)),
        values(first_least(none, three)),
        values(first_least(three, none)),
    ];
    assert_eq!(rt; seen, [[end, end, end, end], [3, 1, 1, 0], [3, 1, 1, 0]]);
}

#[test]
fn numbers_are_copied(rt: HostRuntime) -> Result<(), Fail> {
    let mut numbers = numbers_of(rt.alloc(), &[i64::MIN, 0, i64::MAX])?;
    let copied = numbers.copy()?;
    numbers.clear();
    let seen = (numbers.len(), copied.as_slice());
    assert_eq!(rt; seen, (0, [i64::MIN, 0, i64::MAX].as_slice()));
    Ok(())
}
