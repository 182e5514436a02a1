use ff_rec::Cmp;
use std::process::Abort;

// The comparison of these two numbers holds, or doesn't.
fn check(rt: &impl Abort, cmp: Cmp, x: i64, y: i64, want: bool) {
    assert_eq!(rt; cmp.holds(x, y), want, "{cmp:?}");
}

#[test]
fn compares_numbers(rt: HostRuntime) {
    for (cmp, below, same, above) in [
        (Cmp::Lt, true, false, false),
        (Cmp::Le, true, true, false),
        (Cmp::Eq, false, true, false),
        (Cmp::Ne, true, false, true),
        (Cmp::Ge, false, true, true),
        (Cmp::Gt, false, false, true),
    ] {
        check(&rt, cmp, -1, 2, below);
        check(&rt, cmp, 2, 2, same);
        check(&rt, cmp, i64::MAX, i64::MIN, above);
    }
}
