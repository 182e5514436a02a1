// A stream that is taken in, and its work behind it.
use super::nodes::Gate;
use super::{Devices, SOUND, Slow, sink_of, source_of};
use ff_io::MemSink;
use ff_net::Version;
use ff_stream::{Flow, Halt, Report, RunFault, Stop, Work, open_flow, take_stream};
use std::alloc::Global;
use std::process::Abort;
use std::test::Fail;

// Has an open gate take in three lines, the last one without a newline.
fn take_lines(
    rt: &impl Abort,
    alloc: Global,
    flow: &mut Flow<Gate>,
    sink: &mut MemSink,
    by: Devices,
) -> Result<Result<Stop, Halt>, Fail> {
    let mut source = source_of(rt, alloc, b"1\n2\n3", by)?;
    Ok(take_stream::<Gate, Flow<Gate>, Slow, MemSink>(alloc, Version::One, flow, &mut source, sink))
}

// Pieces of two bytes: what is held is written behind each, and the last line is still held at the end.
#[test]
fn streams_are_taken_in(rt: HostRuntime) -> Result<(), Fail> {
    for (fails, budget, answer, out) in [
        (0, 9, Ok(Stop::End), b"1\n2\n".as_slice()),
        (2, 9, Ok(Stop::Read), b"1\n"),
        (0, 3, Err(Halt::Write), b"1\n2"),
    ] {
        let by = Devices {
            most: 2,
            fails,
            budget,
        };
        let mut flow = open_flow(rt.alloc(), Gate::open(), false);
        let mut sink = sink_of(rt.alloc(), by)?;
        let got = take_lines(&rt, rt.alloc(), &mut flow, &mut sink, by)?;
        assert_eq!(rt; got, answer);
        assert_eq!(rt; sink.taken(), out);
    }
    Ok(())
}

// Ends the work of gates.
fn end<W: Work<Gate>>(alloc: Global, work: W, sink: &mut MemSink) -> Result<Report, RunFault> {
    work.finish(alloc, sink)
}

#[test]
fn work_goes_on_behind_a_stream(rt: HostRuntime) -> Result<(), Fail> {
    let mut flow = open_flow(rt.alloc(), Gate::open(), false);
    let mut sink = sink_of(rt.alloc(), SOUND)?;
    let got = take_lines(&rt, rt.alloc(), &mut flow, &mut sink, SOUND)?;
    assert_eq!(rt; got, Ok(Stop::End));
    let report = end(rt.alloc(), flow, &mut sink);
    assert!(rt; report.is_ok());
    assert_eq!(rt; sink.taken(), b"1\n2\n3\n".as_slice());
    Ok(())
}
