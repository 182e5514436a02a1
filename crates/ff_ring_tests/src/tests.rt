// What no clause says: that the ends see each other's work, when messages are handed over, and that memory suffices.
ghost use Rattle.std.specs.Prelude.{◌≡◌, ◌≤◌, [], IfOk};
ghost use Rattle.ff_rec.specs.Streams.{IsOpen};
ghost use Rattle.ff_ring.specs.Ends.{put_of, written_ring, read_ring};

use ff_port::{Inbox, Outbox, Put};
use ff_rec::{Msg, NoMemory};
use ff_ring::{Bell, Pause, RingIn, RingOut, Spins, ring, settle};
use std::alloc::Global;
use std::process::Abort;
use std::sync::{Arc, Wait};
use std::test::Fail;

mod threads;

// A ring whose bells nobody hears.
fn fresh(alloc: Global, cap: usize) -> Result<(RingOut<u64>, RingIn<u64>), NoMemory>
    requires some { 1 ≤ cap }
    requires most { cap ≤ 4097 }
    ensures pair { IfOk result (λ r. read_ring r.1 ≡ written_ring r.0) }
    ensures put { IfOk result (λ r. put_of r.0 ≡ []) }
{
    let writer = Arc::new(alloc, Bell::new())?;
    let reader = Arc::new(alloc, Bell::new())?;
    ring(alloc, cap, writer, reader)
}

// Puts a number, and tells whether there was room.
#[tactic(auto, using(crate::proofs::Openings::open_put))]
fn puts(out: &mut RingOut<u64>, number: u64) -> bool
    requires { IsOpen (put_of out.old) }
    ensures open { IsOpen (put_of out.new) }
    ensures link { written_ring out.new ≡ written_ring out.old }
{
    matches!(out.try_put(Msg::Item(number)), Put::Done)
}

// Puts the numbers from 0 on until there is no room, and tells how many.
fn fills(out: &mut RingOut<u64>) -> u64
    requires { IsOpen (put_of out.old) }
    ensures { IsOpen (put_of out.new) }
{
    for number in 0..10_000 {
        if !puts(out, number) {
            return number;
        }
    }
    10_000
}

// Takes a message, and tells the number of its item.
fn takes(inn: &mut RingIn<u64>) -> Option<u64>
    ensures { read_ring inn.new ≡ read_ring inn.old }
{
    match inn.try_take() {
        Some(Msg::Item(number)) => Some(number),
        _ => None,
    }
}

// Takes messages until none comes, also after a flush, and tells how many came in order.
fn empties(out: &mut RingOut<u64>, inn: &mut RingIn<u64>) -> u64 {
    for number in 0..10_000 {
        if takes(inn) != Some(number) {
            out.flush();
            if takes(inn) != Some(number) {
                return number;
            }
        }
    }
    10_000
}

// How many messages a ring takes of a writer whose reader takes none. An eager writer hands its first message over
// alone. A ring of two slots or more takes one bundle more, at the writer.
#[test]
fn a_ring_takes_its_capacity(rt: HostRuntime) -> Result<(), Fail> {
    let cases = [
        (1, 1, 1),
        (2, 3, 3),
        (3, 4, 4),
        (4, 5, 6),
        (5, 7, 8),
        (64, 65, 96),
        (512, 513, 544),
        (4096, 4097, 4128),
        (4097, 4129, 4160),
    ];
    for (cap, eager, patient) in cases {
        for (is_eager, most) in [(true, eager), (false, patient)] {
            let (mut out, mut inn) = fresh(rt.alloc(), cap)?;
            out.set_eager(is_eager);
            assert_eq!(rt; fills(&mut out), most, "at {cap}");
            assert_eq!(rt; empties(&mut out, &mut inn), most, "at {cap}");
        }
    }
    Ok(())
}

#[test]
fn one_slot_holds_one_message(rt: HostRuntime) -> Result<(), Fail> {
    let (mut out, mut inn) = fresh(rt.alloc(), 1)?;
    for number in 0..20 {
        assert_eq!(rt; takes(&mut inn), None);
        assert!(rt; puts(&mut out, number));
        assert!(rt; !puts(&mut out, 99));
        assert!(rt; out.flush());
        assert_eq!(rt; takes(&mut inn), Some(number));
    }
    Ok(())
}

// An eager writer lets a message wait only while the reader has others to take.
#[test]
fn no_reader_starves(rt: HostRuntime) -> Result<(), Fail> {
    let (mut out, mut inn) = fresh(rt.alloc(), 64)?;
    for number in 0..3 {
        assert!(rt; puts(&mut out, number));
        assert_eq!(rt; takes(&mut inn), Some(number));
    }
    for number in 3..5 {
        assert!(rt; puts(&mut out, number));
    }
    assert_eq!(rt; takes(&mut inn), Some(3));
    assert_eq!(rt; takes(&mut inn), None);
    assert!(rt; puts(&mut out, 5));
    assert_eq!(rt; takes(&mut inn), Some(4));
    assert_eq!(rt; takes(&mut inn), Some(5));
    Ok(())
}

// A writer that isn't eager hands over full bundles, the end, and what waits at a flush.
#[test]
fn a_patient_writer_gathers(rt: HostRuntime) -> Result<(), Fail> {
    let (mut out, mut inn) = fresh(rt.alloc(), 512)?;
    out.set_eager(false);
    for number in 0..32 {
        assert_eq!(rt; takes(&mut inn), None);
        assert!(rt; puts(&mut out, number));
    }
    for number in 0..32 {
        assert_eq!(rt; takes(&mut inn), Some(number));
    }
    assert!(rt; puts(&mut out, 32));
    assert_eq!(rt; takes(&mut inn), None);
    assert!(rt; out.flush());
    assert_eq!(rt; takes(&mut inn), Some(32));
    assert!(rt; puts(&mut out, 33));
    assert!(rt; matches!(out.try_put(Msg::Eos), Put::Done));
    assert_eq!(rt; takes(&mut inn), Some(33));
    assert!(rt; matches!(inn.try_take(), Some(Msg::Eos)));
    Ok(())
}

// Whether nothing is left: with a message at the writer, on its way, and taken.
#[test]
fn settling_tells_what_is_left(rt: HostRuntime) -> Result<(), Fail> {
    for cap in [2, 64] {
        let (mut out, mut inn) = fresh(rt.alloc(), cap)?;
        out.set_eager(false);
        assert!(rt; settle(&mut out, &mut inn), "at {cap}");
        assert!(rt; puts(&mut out, 7));
        assert!(rt; !settle(&mut out, &mut inn), "at {cap}");
        assert!(rt; out.flush());
        assert!(rt; !settle(&mut out, &mut inn), "at {cap}");
        assert_eq!(rt; takes(&mut inn), Some(7));
        assert!(rt; settle(&mut out, &mut inn), "at {cap}");
    }
    Ok(())
}

// Seven pauses with spins, and one more try. Then it naps, and where that was the last nap, is told to hand over.
fn check_nap<R: Abort + Wait>(rt: &R, bell: &Bell, pause: &mut Pause, last: bool) {
    for _ in 0..8 {
        assert!(rt; !pause.rest(rt));
    }
    assert_eq!(rt; pause.rest(rt), last);
    assert!(rt; !bell.notes_rest());
}

// It naps four times, where something is done behind each nap, and once else. Then it parks until something is done.
#[test]
fn a_pause_naps_at_most_four_times(rt: HostRuntime) -> Result<(), Fail> {
    let bell = Arc::new(rt.alloc(), Bell::new())?;
    let mut pause = Pause::new(Arc::try_clone(&bell)?, Spins::Few, true);
    for lasts in [
        &[false, false, false, true],
        [false].as_slice(),
        &[false, false],
    ] {
        for last in lasts {
            pause.reset();
            check_nap(&rt, &bell, &mut pause, *last);
        }
        for _ in 0..2 {
            assert!(rt; pause.rest(&rt));
            assert!(rt; !pause.rest(&rt));
        }
    }
    Ok(())
}

// Seven or eleven pauses with spins, one more try, and then a park, which ends by itself. Nobody sees the thread rest while
// it isn't parked.
#[test]
fn pauses_spin_and_park(rt: HostRuntime) -> Result<(), Fail> {
    for (spins, count) in [(Spins::Few, 7), (Spins::Many, 11)] {
        let bell = Arc::new(rt.alloc(), Bell::new())?;
        let mut pause = Pause::new(Arc::try_clone(&bell)?, spins, false);
        for _ in 0..2 {
            for _ in 0..count {
                assert!(rt; !pause.rest(&rt));
            }
            for _ in 0..6 {
                // It lies down, and then it parks; and the other way to pause does so, too.
                assert!(rt; pause.rest(&rt));
                assert!(rt; !bell.notes_rest());
                assert!(rt; !pause.rest(&rt));
                assert!(rt; !bell.notes_rest());
                pause.watch(&rt);
                pause.watch(&rt);
            }
            pause.reset();
        }
    }
    Ok(())
}

// How many pauses there are until the thread lies down. It doesn't sleep.
fn pauses_until_it_lies<R: Wait>(rt: &R, pause: &mut Pause) -> u64 {
    pause.reset();
    for count in 0..100 {
        if pause.rest(rt) {
            return count;
        }
    }
    100
}

// Seven pauses with spins, and 64 more where it looks on. Where these found nothing the next wait has none, and then the next 3, 7, ..
// 63; and from 1 on again once something came meanwhile.
#[test]
fn a_thread_looks_on_less_where_it_found_nothing(rt: HostRuntime) -> Result<(), Fail> {
    let bell = Arc::new(rt.alloc(), Bell::new())?;
    let mut pause = Pause::new(bell, Spins::Long, false);
    for gaps in [&[0, 1, 3, 7, 15, 31, 63, 63], [0, 1, 3].as_slice()] {
        for gap in gaps {
            for _ in 0..*gap {
                assert_eq!(rt; pauses_until_it_lies(&rt, &mut pause), 7);
            }
            assert_eq!(rt; pauses_until_it_lies(&rt, &mut pause), 71, "behind {gap}");
        }
        finds_while_it_looks_on(&rt, &mut pause);
    }
    Ok(())
}

// Waits until it looks on again, and finds something then.
fn finds_while_it_looks_on<R: Wait>(rt: &R, pause: &mut Pause) {
    for _ in 0..100 {
        pause.reset();
        for _ in 0..7 {
            let _ = pause.rest(rt);
        }
        if !pause.rest(rt) {
            break;
        }
    }
    pause.reset();
}

// A thread that has ended counts as one that rests: one that worked, that lay down, and that slept; and whoever rings.
#[test]
fn a_thread_that_ended_rests(rt: HostRuntime) -> Result<(), Fail> {
    for pauses in [0, 8, 9] {
        let bell = Arc::new(rt.alloc(), Bell::new())?;
        let mut pause = Pause::new(Arc::try_clone(&bell)?, Spins::Few, false);
        for _ in 0..pauses {
            let _ = pause.rest(&rt);
        }
        let before = bell.notes_rest();
        pause.end();
        let noted = bell.notes_rest();
        bell.ring();
        let seen = (before, noted, bell.still_rests(), bell.notes_rest());
        assert_eq!(rt; seen, (false, true, true, true), "behind {pauses}");
    }
    Ok(())
}
