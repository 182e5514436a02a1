// Which records meet a test, and where they go in a wrap.
use ff_net::{Tasks, Test, sort};
use ff_node::{Cmp, Records, Sends};
use ff_rec::{Record, split};
use std::alloc::Global;
use std::process::Abort;
use std::test::Fail;

fn record(alloc: Global, line: &str) -> Result<Record, Fail> {
    Ok(Record::of_line(alloc, split(line.as_bytes(), b'\n').0)?)
}

// Whether the second field is above 1.
const ABOVE: Test = Test {
    field: 2,
    cmp: Cmp::Gt,
    value: 1,
};

fn expect_met(rt: &impl Abort, r: &Record, want: bool, line: &str) {
    assert_eq!(rt; ABOVE.is_met(r), want, "{line}");
}

#[test]
fn records_meet_a_test_by_their_number(rt: HostRuntime) -> Result<(), Fail> {
    for (line, want) in [
        ("a\t2", true),
        ("a\t+02\tb", true),
        ("a\t1", false),
        ("a\tx", false),
        ("2", false),
        ("", false),
    ] {
        expect_met(&rt, &record(rt.alloc(), line)?, want, line);
    }
    Ok(())
}

// What was sent: records with a `/` behind each.
fn sent(alloc: Global, lines: &str) -> Result<Sends, Fail> {
    let mut out = Sends::new(alloc, false);
    for line in lines.split_terminator('/') {
        out.send(record(alloc, line)?)?;
    }
    Ok(out)
}

// Whether there was room for all new tasks, how many these are, how many results, and the room that is left.
fn sorted(alloc: Global, lines: &str, room: u64) -> Result<(bool, usize, usize, u64), Fail> {
    let mut tasks = Tasks {
        next: Records::new(alloc),
        room,
        results: Records::new(alloc),
    };
    let all = sort(&ABOVE, &mut tasks, &mut sent(alloc, lines)?)?;
    Ok((all, tasks.next.len(), tasks.results.len(), tasks.room))
}

// Each task takes of the room, and the first for which there is none ends it.
#[test]
fn tasks_take_of_the_room(rt: HostRuntime) -> Result<(), Fail> {
    let found = (
        sorted(rt.alloc(), "a\t2/b/c\t3/", 2)?,
        sorted(rt.alloc(), "a\t2/b/c\t3/d/", 1)?,
    );
    assert_eq!(rt; found, ((true, 2, 1, 0), (false, 1, 1, 0)));
    Ok(())
}
