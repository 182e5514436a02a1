// Each rule through its entry in a table, divided down to a cut, over lists that were worked out by hand.
use super::{numbers_of, values};
use ff_dc::{
    DcEntry, DcRule, DcTable, Four, Numbers, Part, add_firsts, bracket_at_once, fib_at_once,
    first_least, firstmin_at_once, halve, is_small_part, join_runs, maxsub_at_once, meet_brackets,
    sum_at_once, two_before,
};
use ff_rec::NoMemory;
use std::alloc::Global;
use std::process::Abort;
use std::test::Fail;

// What is still to be done: to answer a part, or, at none, to combine the last two values.
type Work = Vec<Option<Part>>;

// One piece of work; false where there is none.
fn turn(
    entry: &DcEntry,
    numbers: &Numbers,
    cut: u32,
    work: &mut Work,
    done: &mut Vec<Four>,
) -> Result<bool, NoMemory> {
    match work.pop() {
        None => return Ok(false),
        Some(None) => combine_last(entry, done)?,
        Some(Some(part)) if entry.is_small(part, cut) => {
            done.push(entry.at_once(numbers, part))?;
        }
        Some(Some(part)) => {
            let (left, right) = entry.divide(part);
            work.push(None)?;
            work.push(Some(right))?;
            work.push(Some(left))?;
        }
    }
    Ok(true)
}

fn combine_last(entry: &DcEntry, done: &mut Vec<Four>) -> Result<(), NoMemory> {
    if let (Some(right), Some(left)) = (done.pop(), done.pop()) {
        done.push(entry.combine(left, right))?;
    }
    Ok(())
}

// The values of a part by an entry; none where that takes more than a million turns.
fn by_entry(
    entry: &DcEntry,
    numbers: &Numbers,
    part: Part,
    cut: u32,
    alloc: Global,
) -> Result<Option<Four>, NoMemory> {
    let mut work = Vec::new(alloc);
    let mut done = Vec::new(alloc);
    work.push(Some(part))?;
    for _ in 0..1_000_000 {
        if !turn(entry, numbers, cut, &mut work, &mut done)? {
            return Ok(done.pop());
        }
    }
    Ok(None)
}

// The values by the plain functions of a rule.
fn by_rule(
    rule: DcRule,
    numbers: &Numbers,
    part: Part,
    cut: u32,
    alloc: Global,
) -> Result<Option<Four>, NoMemory> {
    let table = DcTable {
        fib: DcEntry::new(
            DcRule::Fib,
            is_small_part,
            fib_at_once,
            two_before,
            add_firsts,
        ),
        sum: DcEntry::new(DcRule::Sum, is_small_part, sum_at_once, halve, add_firsts),
        maxsub: DcEntry::new(
            DcRule::MaxSub,
            is_small_part,
            maxsub_at_once,
            halve,
            join_runs,
        ),
        firstmin: DcEntry::new(
            DcRule::FirstMin,
            is_small_part,
            firstmin_at_once,
            halve,
            first_least,
        ),
        bracket: DcEntry::new(
            DcRule::Bracket,
            is_small_part,
            bracket_at_once,
            halve,
            meet_brackets,
        ),
    };
    let entry = match rule {
        DcRule::Fib => table.fib,
        DcRule::Sum => table.sum,
        DcRule::MaxSub => table.maxsub,
        DcRule::FirstMin => table.firstmin,
        DcRule::Bracket => table.bracket,
    };
    by_entry(&entry, numbers, part, cut, alloc)
}

// The values of a whole list.
fn of_list(
    alloc: Global,
    rule: DcRule,
    ns: &[i64],
    cut: u32,
) -> Result<Option<[i128; 4]>, NoMemory> {
    let numbers = numbers_of(alloc, ns)?;
    let whole = Part {
        lo: 0,
        hi: u32::try_from(ns.len()).unwrap_or(u32::MAX),
    };
    let four = by_rule(rule, &numbers, whole, cut, alloc)?;
    Ok(four.map(values))
}

#[test]
fn ranges_at_every_cut(rt: HostRuntime) -> Result<(), Fail> {
    let rows: [(DcRule, &[i64], [i128; 4]); 10] = [
        (DcRule::Sum, &[], [0, 0, 0, 0]),
        (DcRule::Sum, &[5, -2, 7], [10, 0, 0, 0]),
        (
            DcRule::Sum,
            &[i64::MIN, i64::MIN, i64::MIN],
            [-27670116110564327424, 0, 0, 0],
        ),
        (DcRule::MaxSub, &[], [0, 0, 0, 0]),
        (DcRule::MaxSub, &[-3, -1], [-4, 0, 0, 0]),
        (DcRule::MaxSub, &[2, -3, 4, -1, 2, -5], [-1, 4, 0, 5]),
        (DcRule::FirstMin, &[], [0, 0, 0, 0]),
        (DcRule::FirstMin, &[3, 1, 1], [1, 2, 1, 0]),
        (DcRule::Bracket, &[41, 40], [1, 1, 0, 0]),
        (DcRule::Bracket, &[40, 40, 41, 7, 41], [0, 0, 0, 0]),
    ];
    for (k, (rule, ns, want)) in rows.into_iter().enumerate() {
        for cut in [1, 2, 16] {
            let seen = of_list(rt.alloc(), rule, ns, cut)?;
            assert_eq!(rt; seen, Some(want), "row {k} by {cut}");
        }
    }
    Ok(())
}

// The number of Fibonacci at a place, divided down to a cut.
fn fib(alloc: Global, n: u32, cut: u32) -> Result<Option<[i128; 4]>, NoMemory> {
    let none = Numbers::new(alloc);
    let four = by_rule(DcRule::Fib, &none, Part { lo: 0, hi: n }, cut, alloc)?;
    Ok(four.map(values))
}

#[test]
fn fib_of_one_number(rt: HostRuntime) -> Result<(), Fail> {
    for (n, cut, want) in [
        (0, 16, 0),
        (1, 1, 1),
        (2, 1, 1),
        (10, 16, 55),
        (10, 1, 55),
        (90, 80, 2880067194370816120),
    ] {
        let seen = fib(rt.alloc(), n, cut)?;
        assert_eq!(rt; seen, Some([want, 0, 0, 0]), "at {n} by {cut}");
    }
    Ok(())
}

// The sum of so many ones.
fn sum_of_ones(alloc: Global, n: u32) -> Result<Option<[i128; 4]>, NoMemory> {
    let mut ones = Numbers::new(alloc);
    for _ in 0..n {
        ones.push(1)?;
    }
    let four = by_rule(DcRule::Sum, &ones, Part { lo: 0, hi: n }, 4_096, alloc)?;
    Ok(four.map(values))
}

#[test]
fn as_many_numbers_as_may_be(rt: HostRuntime) -> Result<(), Fail> {
    let seen = sum_of_ones(rt.alloc(), 262_144)?;
    assert_eq!(rt; seen, Some([262_144, 0, 0, 0]));
    Ok(())
}
