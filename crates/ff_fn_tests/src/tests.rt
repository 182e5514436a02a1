// What no clause says: that the definitions mean these values, which were worked out by hand, at
// the ends of 64 bits too.
use ff_fn::{
    FnTable, FoldEntry, FoldRule, MapEntry, MapRule, TestEntry, TestRule, collatz, digits, gcd,
    isqrt, square, xor,
};
use std::process::Abort;

#[test]
fn maps_and_tests_by_their_table(rt: HostRuntime) {
    let fns = FnTable {
        digits: MapEntry::new(MapRule::Digits, digits),
        collatz: MapEntry::new(MapRule::Collatz, collatz),
        isqrt: MapEntry::new(MapRule::Isqrt, isqrt),
        square: TestEntry::new(TestRule::Square, square),
        gcd: FoldEntry::new(FoldRule::Gcd, gcd),
        xor: FoldEntry::new(FoldRule::Xor, xor),
    };
    for (x, sum, next, root, is_square) in [
        (0, 0, None, Some(0), true),
        (1, 1, Some(4), Some(1), true),
        (7, 7, Some(22), Some(2), false),
        (8, 8, Some(4), Some(2), false),
        (15, 6, Some(46), Some(3), false),
        (16, 7, Some(8), Some(4), true),
        (36, 9, Some(18), Some(6), true),
        (905, 14, Some(2_716), Some(30), false),
        (-4, 4, None, None, false),
        (-12, 3, None, None, false),
        (i64::MIN, 89, None, None, false),
        (i64::MAX, 88, None, Some(3_037_000_499), false),
        (
            i64::MAX - 1,
            87,
            Some(4_611_686_018_427_387_903),
            Some(3_037_000_499),
            false,
        ),
        (
            3_074_457_345_618_258_601,
            79,
            Some(9_223_372_036_854_775_804),
            Some(1_753_413_056),
            false,
        ),
        (
            3_074_457_345_618_258_603,
            81,
            None,
            Some(1_753_413_056),
            false,
        ),
        (
            9_223_372_030_926_249_001,
            64,
            None,
            Some(3_037_000_499),
            true,
        ),
    ] {
        let seen = (
            fns.digits.answer(x),
            fns.collatz.answer(x),
            fns.isqrt.answer(x),
            fns.square.answer(x),
        );
        assert_eq!(rt; seen, (Some(sum), next, root, is_square), "at {x}");
    }
}

#[test]
fn folds_by_their_entries(rt: HostRuntime) {
    let gcd = FoldEntry::new(FoldRule::Gcd, gcd);
    for (state, x, want) in [
        (0, 0, 0),
        (0, -4, 4),
        (36, 81, 9),
        (9, 144, 9),
        (0, i64::MIN, 9_223_372_036_854_775_808),
        (9_223_372_036_854_775_808, 6, 2),
    ] {
        assert_eq!(rt; gcd.answer(state, x), want, "gcd of {state} and {x}");
    }
    let xor = FoldEntry::new(FoldRule::Xor, xor);
    for (state, x, want) in [
        (0, 0, 0),
        (5, 6, 3),
        (-1, 6, -7),
        (9_223_372_036_854_775_807, i64::MIN, -1),
    ] {
        assert_eq!(rt; xor.answer(state, x), want, "xor of {state} and {x}");
    }
}
