// What no clause says: that the ends see each other's work, that memory suffices, and when the spine has no room.
ghost use Rattle.std.specs.Prelude.{◌≡◌, ◌≤◌, [], IfOk};
ghost use Rattle.ff_rec.specs.Streams.{IsOpen};

use ff_chain::{ChainIn, ChainOut, chain, settle_chain};
use ff_port::{Inbox, Outbox, Put};
use ff_rec::{Msg, NoMemory};
use ff_ring::Bell;
use std::alloc::Global;
use std::process::Abort;
use std::sync::Arc;
use std::test::Fail;

mod backlog;
mod threads;

// So many messages go through a chain in the longer tests: a drop by deep calls would overflow the stack, and each
// message that is kept takes 16 bytes or more.
const MANY: u64 = 200_000;

// A chain whose bells nobody hears.
fn fresh<T: Drop>(alloc: Global, segment: usize) -> Result<(ChainOut<T>, ChainIn<T>), NoMemory>
    requires some { 1 ≤ segment }
    requires most { segment ≤ 4096 }
    ensures pair { IfOk result (λ r. r.1.chain ≡ r.0.chain) }
    ensures put { IfOk result (λ r. r.0.put ≡ []) }
{
    let writer = Arc::new(alloc, Bell::new())?;
    let reader = Arc::new(alloc, Bell::new())?;
    chain(alloc, segment, writer, reader)
}

// Puts an item, and tells whether that was done.
#[tactic(auto, using(crate::proofs::Openings::open_put))]
fn puts<T: Drop>(out: &mut ChainOut<T>, item: T) -> bool
    requires { IsOpen out.old.put }
    ensures open { IsOpen out.new.put }
    ensures link { out.new.chain ≡ out.old.chain }
{
    matches!(out.try_put(Msg::Item(item)), Put::Done)
}

// Puts these numbers, and tells whether all were put.
fn fills(out: &mut ChainOut<u64>, from: u64, to: u64) -> bool
    requires { IsOpen out.old.put }
    ensures open { IsOpen out.new.put }
    ensures link { out.new.chain ≡ out.old.chain }
{
    for number in from..to {
        if !puts(out, number) {
            return false;
        }
    }
    true
}

// Puts the end of the stream, and tells whether that was done.
fn ends(out: &mut ChainOut<u64>, aborts: bool) -> bool
    requires { IsOpen out.old.put }
    ensures { out.new.chain ≡ out.old.chain }
{
    let end = if aborts { Msg::Abort } else { Msg::Eos };
    matches!(out.try_put(end), Put::Done)
}

// Takes a message, and tells the number of its item.
fn takes(inn: &mut ChainIn<u64>) -> Option<u64>
    ensures { inn.new.chain ≡ inn.old.chain }
{
    match inn.try_take() {
        Some(Msg::Item(number)) => Some(number),
        _ => None,
    }
}

// Whether the next message is this end of the stream.
fn takes_end(inn: &mut ChainIn<u64>, aborts: bool) -> bool
    ensures { inn.new.chain ≡ inn.old.chain }
{
    match inn.try_take() {
        Some(Msg::Eos) => !aborts,
        Some(Msg::Abort) => aborts,
        _ => false,
    }
}

// Whether the next message is this number. Where none comes, the writer hands over what waits.
fn brings(out: &mut ChainOut<u64>, inn: &mut ChainIn<u64>, number: u64) -> bool
    ensures writer { out.new.chain ≡ out.old.chain }
    ensures put { out.new.put ≡ out.old.put }
    ensures reader { inn.new.chain ≡ inn.old.chain }
{
    if let Some(came) = takes(inn) {
        return came == number;
    }
    out.flush();
    takes(inn) == Some(number)
}

// Whether the next messages are these numbers.
fn empties(out: &mut ChainOut<u64>, inn: &mut ChainIn<u64>, from: u64, to: u64) -> bool
    ensures writer { out.new.chain ≡ out.old.chain }
    ensures put { out.new.put ≡ out.old.put }
    ensures reader { inn.new.chain ≡ inn.old.chain }
{
    for number in from..to {
        if !brings(out, inn, number) {
            return false;
        }
    }
    true
}

// Whether something is left: before all, in front of each of so many messages, in front of the end, and behind it.
fn check_settling(
    rt: &impl Abort,
    out: &mut ChainOut<u64>,
    inn: &mut ChainIn<u64>,
    count: u64,
    aborts: bool,
)
    requires open { IsOpen out.old.put }
    requires pair { inn.old.chain ≡ out.old.chain }
{
    assert!(rt; settle_chain(out, inn));
    assert!(rt; fills(out, 0, count));
    for number in 0..count {
        assert!(rt; !settle_chain(out, inn), "{number} of {count}");
        assert_eq!(rt; takes(inn), Some(number));
    }
    assert!(rt; settle_chain(out, inn));
    assert!(rt; ends(out, aborts));
    assert!(rt; !settle_chain(out, inn));
    assert!(rt; takes_end(inn, aborts));
    assert!(rt; settle_chain(out, inn));
    assert!(rt; out.flush());
}

#[test]
fn settling_tells_what_is_left(rt: HostRuntime) -> Result<(), Fail> {
    for segment in [1, 2, 64, 4096] {
        for count in [0, 1, 33, 100] {
            for (eager, aborts) in [(true, false), (false, true)] {
                let (mut out, mut inn) = fresh(rt.alloc(), segment)?;
                out.set_eager(eager);
                inn.set_eager(eager);
                check_settling(&rt, &mut out, &mut inn, count, aborts);
            }
        }
    }
    Ok(())
}

// However full the segment is that is written, there is a place for the end of the stream, and it comes behind all else.
#[test]
fn an_end_is_never_refused(rt: HostRuntime) -> Result<(), Fail> {
    for segment in [1, 2, 3, 32, 33] {
        for count in [0, 1, 2, 3, 4, 31, 32, 33, 34, 63, 64, 65, 66] {
            for (eager, aborts) in [(true, false), (false, true)] {
                let (mut out, mut inn) = fresh(rt.alloc(), segment)?;
                out.set_eager(eager);
                assert!(rt; fills(&mut out, 0, count), "{count} at {segment}");
                assert!(rt; ends(&mut out, aborts), "{count} at {segment}");
                assert!(rt;
                    empties(&mut out, &mut inn, 0, count),
                    "{count} at {segment}"
                );
                assert!(rt; takes_end(&mut inn, aborts), "{count} at {segment}");
            }
        }
    }
    Ok(())
}

// A segment of one slot has one message. The first segment goes to the reader at once, and 32 more behind links on the
// spine. Further links wait at the writer, until the reader has taken as many off the spine.
#[test]
fn a_flush_waits_for_room_on_the_spine(rt: HostRuntime) -> Result<(), Fail> {
    let (mut out, mut inn) = fresh(rt.alloc(), 1)?;
    for number in 0..33 {
        assert!(rt; puts(&mut out, number));
        assert!(rt; out.flush(), "with {number}");
    }
    for number in 33..40 {
        assert!(rt; puts(&mut out, number));
        assert!(rt; !out.flush(), "with {number}");
    }
    for number in 0..7 {
        assert_eq!(rt; takes(&mut inn), Some(number));
        assert!(rt; !out.flush(), "behind {number}");
    }
    assert_eq!(rt; takes(&mut inn), Some(7));
    assert!(rt; out.flush());
    for number in 8..40 {
        assert_eq!(rt; takes(&mut inn), Some(number));
    }
    Ok(())
}
