// What no clause says: that memory is there and starts succeed, and that the definitions mean these
// values.
ghost use Rattle.std.specs.Prelude.{◌≡◌, ◌+◌, ◌≤◌, length, IsTrue};
ghost use Rattle.ff_dc.specs.declared.rule.DcRule.TheVariants.{Fib};
ghost use Rattle.ff_dc.specs.Dividing.{IsPart};

use ff_dc::{DcRule, Four, Numbers, Part};
use ff_dc_tasks::{PlainFunctions, RuleFunctions, run_dc};
use ff_rec::NoMemory;
use ff_spawn::{RefuseAt, Threads};
use ff_tasks::LoopFault;
use std::alloc::Global;
use std::sync::Wait;
use std::test::Fail;
use std::thread;

// What came of a run: the four values, or why it broke off; and how many threads were started, how
// much they answered, and how many starts were refused.
type Outcome = (Result<[i128; 4], LoopFault>, [u64; 3]);

// Whether a rule may be asked for the part up to `hi`.
fn may_ask(rule: DcRule, numbers: &Numbers, hi: u32, cut: u32) -> bool
    ensures part { IsTrue result → IsPart rule numbers.now (0, hi) }
    ensures near { IsTrue result → rule ≡ Fib → hi ≤ cut + 24 }
{
    match rule {
        DcRule::Fib => hi <= 90 && hi <= cut.saturating_add(24),
        DcRule::Sum | DcRule::MaxSub | DcRule::FirstMin | DcRule::Bracket => {
            hi as usize <= numbers.len()
        }
    }
}

// The values of the part up to `hi` by so many workers, where start `refuse` is refused, counted
// from 1. None where a rule may not be asked for that.
fn by_threads<R: thread::Threads + Wait + Clone + Drop + Send + 'static>(
    rt: &R,
    alloc: Global,
    rule: DcRule,
    numbers: &Numbers,
    hi: u32,
    cut: u32,
    workers: u32,
    refuse: u64,
) -> Result<Option<Outcome>, Fail> {
    let some = 1 <= workers && 1 <= cut;
    let few = workers <= 64 && cut <= 1000000 && numbers.len() <= 262144;
    if !some || !few || !may_ask(rule, numbers, hi, cut) {
        return Ok(None);
    }
    let part = Part { lo: 0, hi };
    let functions = PlainFunctions::of(rule);
    let refuse = Vec::from_array(alloc, [refuse])?;
    let mut spawner = RefuseAt::new(Threads::new(rt.clone()?), refuse);
    let answer = run_dc(
        rt,
        alloc,
        functions,
        numbers,
        part,
        cut,
        workers,
        &mut spawner,
    );
    let inner = spawner.inner();
    let counts = [inner.starts(), inner.worked(), inner.refused()];
    match answer {
        Ok(four) => Ok(Some((Ok(values(four)), counts))),
        Err(fault) => Ok(Some((Err(fault), counts))),
    }
}

// The values as they stand.
fn values(four: Four) -> [i128; 4] {
    [four.get(0), four.get(1), four.get(2), four.get(3)]
}

// So many numbers: brackets and others in no order, or from -1001 to 1001.
fn numbers_for(alloc: Global, rule: DcRule, n: u32) -> Result<Numbers, NoMemory> {
    let mut numbers = Numbers::new(alloc);
    for k in 0..n {
        let k = i64::from(k);
        let number = match rule {
            DcRule::Bracket => 39 + k * 7 % 5,
            DcRule::Fib | DcRule::Sum | DcRule::MaxSub | DcRule::FirstMin => k * 7919 % 2003 - 1001,
        };
        numbers.push(number)?;
    }
    Ok(numbers)
}

#[test]
fn every_rule_by_threads(rt: HostRuntime) -> Result<(), Fail> {
    // 5,000 numbers, and how many parts they are divided into, divided ones among them: down to one
    // number each, to 512 parts of 9 or 10, to two.
    let n = 5000;
    let rules = [
        DcRule::Sum,
        DcRule::MaxSub,
        DcRule::FirstMin,
        DcRule::Bracket,
    ];
    for rule in rules {
        let numbers = numbers_for(rt.alloc(), rule, n)?;
        let plain = PlainFunctions::of(rule).at_once(&numbers, Part { lo: 0, hi: n });
        for (cut, parts) in [(1, 9999), (16, 1023), (4096, 3)] {
            for workers in [1, 2, 3, 4] {
                let seen = by_threads(&rt, rt.alloc(), rule, &numbers, n, cut, workers, 0)?;
                let want = (Ok(values(plain)), [u64::from(workers), parts, 0]);
                assert_eq!(rt; seen, Some(want), "{rule:?} by {cut}, {workers} workers");
            }
        }
    }
    Ok(())
}

#[test]
fn numbers_of_fibonacci_by_threads(rt: HostRuntime) -> Result<(), Fail> {
    let none = Numbers::new(rt.alloc());
    let rows = [
        (0, 1, 0, 1),
        (10, 1, 55, 177),
        (10, 16, 55, 1),
        (40, 16, 102334155, 242785),
        (90, 4096, 2880067194370816120, 1),
    ];
    for (n, cut, value, parts) in rows {
        for workers in [1, 4] {
            let seen = by_threads(&rt, rt.alloc(), DcRule::Fib, &none, n, cut, workers, 0)?;
            let want = (Ok([value, 0, 0, 0]), [u64::from(workers), parts, 0]);
            assert_eq!(rt; seen, Some(want), "{n} by {cut}, {workers} workers");
        }
    }
    Ok(())
}

#[test]
fn lists_by_threads(rt: HostRuntime) -> Result<(), Fail> {
    let rows: [(DcRule, &[i64], u32, [i128; 4]); 7] = [
        (DcRule::Bracket, &[41, 40], 1, [1, 1, 0, 0]),
        (DcRule::Bracket, &[40, 40, 41, 7, 41], 1, [0, 0, 0, 0]),
        (DcRule::Sum, &[5, -2, 7], 2, [10, 0, 0, 0]),
        (DcRule::MaxSub, &[2, -3, 4, -1, 2, -5], 1, [-1, 4, 0, 5]),
        (DcRule::MaxSub, &[], 16, [0, 0, 0, 0]),
        (DcRule::FirstMin, &[3, 1, 1], 1, [1, 2, 1, 0]),
        (DcRule::FirstMin, &[], 1, [0, 0, 0, 0]),
    ];
    for (k, (rule, ns, cut, want)) in rows.into_iter().enumerate() {
        let mut numbers = Numbers::new(rt.alloc());
        for n in ns {
            numbers.push(*n)?;
        }
        let hi = u32::try_from(ns.len()).unwrap_or(u32::MAX);
        let seen = by_threads(&rt, rt.alloc(), rule, &numbers, hi, cut, 2, 0)?;
        assert_eq!(rt; seen.map(|outcome| outcome.0), Some(Ok(want)), "row {k}");
    }
    Ok(())
}

#[test]
fn a_start_is_refused(rt: HostRuntime) -> Result<(), Fail> {
    let numbers = numbers_for(rt.alloc(), DcRule::Sum, 100)?;
    for (refuse, starts) in [(1, 0), (2, 1), (3, 2)] {
        let seen = by_threads(&rt, rt.alloc(), DcRule::Sum, &numbers, 100, 1, 3, refuse)?;
        let want = (Err(LoopFault::Refused), [starts, 0, 1]);
        assert_eq!(rt; seen, Some(want), "start {refuse}");
    }
    Ok(())
}

#[test]
fn as_many_numbers_as_may_be(rt: HostRuntime) -> Result<(), Fail> {
    let mut ones = Numbers::new(rt.alloc());
    for _ in 0..262144 {
        ones.push(1)?;
    }
    let seen = by_threads(&rt, rt.alloc(), DcRule::Sum, &ones, 262144, 1, 4, 0)?;
    assert_eq!(rt; seen, Some((Ok([262144, 0, 0, 0]), [4, 524287, 0])));
    Ok(())
}
