// Runs that end before the end of their input.
use super::nodes::{Gate, Last};
use super::{DONE, Devices, Kind, SOUND, WRITE, check, run, sink_of, source_of};
use ff_io::Source;
use ff_rec::LineFault;
use ff_stream::Stop;
use std::alloc::Global;
use std::process::Abort;
use std::test::Fail;

#[test]
fn read_that_fails(rt: HostRuntime) -> Result<(), Fail> {
    // Pieces of two bytes: calls 1 to 4 give the lines, with half of the last one in call 3, and call 5 tells the end.
    for (fails, out, last) in [
        (1, b"".as_slice(), b"".as_slice()),
        (2, b"1\n", b"1\n"),
        (3, b"1\n2\n", b"2\n"),
        (5, b"1\n2\n", b"2\n"),
    ] {
        let by = Devices {
            most: 2,
            fails,
            ..SOUND
        };
        let read = Kind::Ended(Stop::Read);
        check(&rt, rt.alloc(), Gate::of(9), b"1\n2\n345", by, read, out, 0)?;
        check(
            &rt,
            rt.alloc(),
            Last::new(),
            b"1\n2\n345",
            by,
            read,
            last,
            0,
        )?;
    }
    Ok(())
}

// More than a piece and more than is held of a text.
fn long_input(alloc: Global) -> Result<Vec<u8>, Fail> {
    let mut long = Vec::new(alloc);
    for _ in 0..7_500 {
        long.extend_from_slice(b"even\nuneven\n")?;
    }
    Ok(long)
}

// An open gate, whose sink takes no more than this of the whole.
fn check_budget(rt: &impl Abort, alloc: Global, whole: &[u8], budget: usize) -> Result<(), Fail> {
    let out = whole.get(..budget).ok_or("short")?;
    for most in [2, 65_536] {
        let by = Devices {
            most,
            budget,
            ..SOUND
        };
        check(rt, alloc, Gate::open(), whole, by, WRITE, out, 0)?;
    }
    Ok(())
}

#[test]
fn write_that_fails(rt: HostRuntime) -> Result<(), Fail> {
    for budget in [0, 3, 6] {
        check_budget(&rt, rt.alloc(), b"1\n22\n3\n", budget)?;
    }
    Ok(())
}

#[test]
fn write_that_fails_late(rt: HostRuntime) -> Result<(), Fail> {
    let alloc = rt.alloc();
    let long = long_input(alloc)?;
    check_budget(&rt, alloc, &long, 70_000)?;
    check(&rt, alloc, Gate::open(), &long, SOUND, DONE, &long, 0)
}

// Runs that end at the third line: of a node that goes on, of one that ended before, and of one that sends at its end.
fn check_third_line(
    rt: &impl Abort,
    alloc: Global,
    input: &[u8],
    by: Devices,
    fault: LineFault,
) -> Result<(), Fail> {
    let line = Kind::Ended(Stop::Line(fault));
    check(rt, alloc, Gate::open(), input, by, line, b"1\n", 1)?;
    check(rt, alloc, Gate::of(1), input, by, line, b"1\n", 0)?;
    check(rt, alloc, Last::new(), input, by, line, b"a\tb\n", 0)
}

// Two lines with a third one of so many such bytes behind them end the run for this fault.
fn check_limit(
    rt: &impl Abort,
    alloc: Global,
    byte: u8,
    count: usize,
    fault: LineFault,
) -> Result<(), Fail> {
    let mut input = Vec::from_slice(alloc, b"1\na\tb\n")?;
    input.resize(count.saturating_add(input.len()), byte)?;
    for most in [5, 65_536] {
        let by = Devices { most, ..SOUND };
        check_third_line(rt, alloc, &input, by, fault)?;
    }
    Ok(())
}

#[test]
fn line_past_a_limit(rt: HostRuntime) -> Result<(), Fail> {
    check_limit(&rt, rt.alloc(), b'\t', 64, LineFault::TooManyFields(3))?;
    check_limit(&rt, rt.alloc(), b'x', 65_537, LineFault::TooLong(3))
}

// What was read is written before more is read, so a sink that fails leaves the rest of the input; and nothing of it
// comes from the end of the input.
#[test]
fn results_show_before_the_end(rt: HostRuntime) -> Result<(), Fail> {
    let by = Devices {
        most: 2,
        fails: 0,
        budget: 0,
    };
    let mut source = source_of(&rt, rt.alloc(), b"1\n2\n", by)?;
    let mut sink = sink_of(rt.alloc(), by)?;
    let answer = run(rt.alloc(), Gate::open(), false, &mut source, &mut sink);
    assert!(rt; answer.is_err());
    let mut buf = [0; 4];
    assert_eq!(rt; source.read(&mut buf), Ok(2));
    assert_eq!(rt; &buf[..2], b"2\n".as_slice());
    Ok(())
}
