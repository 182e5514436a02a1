// The memory of a chain is what its reader hasn't taken yet.
ghost use Rattle.std.specs.Prelude.{◌≡◌};
ghost use Rattle.ff_rec.specs.Streams.{IsOpen};

use super::{MANY, empties, ends, fills, fresh, puts, takes_end};
use ff_chain::{ChainIn, ChainOut};
use ff_rec::NoMemory;
use std::alloc::{Alloc, Global};
use std::fs;
use std::sync::Arc;
use std::test::Fail;

// How many pages of memory the process holds.
fn pages<R: fs::Files + Alloc>(rt: &R) -> Result<u64, Fail> {
    let told = fs::read_to_string(rt, "/proc/self/statm")?;
    let Some(word) = told.split(' ').nth(1) else {
        return Err(Fail::from("no second word"));
    };
    Ok(word.parse::<u64>()?)
}

// Puts eleven numbers and takes them, so many times. It tells whether all came.
fn keeps_up(out: &mut ChainOut<u64>, inn: &mut ChainIn<u64>, turns: u64) -> bool
    requires { IsOpen out.old.put }
{
    for turn in 0..turns {
        let from = turn.saturating_mul(11);
        let to = from.saturating_add(11);
        if !fills(out, from, to) {
            return false;
        }
        if !empties(out, inn, from, to) {
            return false;
        }
    }
    true
}

// Messages that are kept would take MANY / 256 pages or more.
#[test]
fn a_reader_that_keeps_up(rt: HostRuntime) -> Result<(), Fail> {
    for segment in [64, 512] {
        let (mut out, mut inn) = fresh(rt.alloc(), segment)?;
        let before = pages(&rt)?;
        assert!(rt; keeps_up(&mut out, &mut inn, MANY / 11), "at {segment}");
        let most = before.saturating_add(MANY / 300);
        let after = pages(&rt)?;
        assert!(rt; after < most, "at {segment}: {before}, {after}");
    }
    Ok(())
}

#[test]
fn a_reader_that_begins_late(rt: HostRuntime) -> Result<(), Fail> {
    for segment in [1, 64] {
        let (mut out, mut inn) = fresh(rt.alloc(), segment)?;
        assert!(rt; fills(&mut out, 0, MANY), "at {segment}");
        assert!(rt; ends(&mut out, false), "at {segment}");
        assert!(rt; empties(&mut out, &mut inn, 0, MANY), "at {segment}");
        assert!(rt; takes_end(&mut inn, false), "at {segment}");
    }
    Ok(())
}

// Puts a message that holds this, so many times. It tells whether all were put.
fn puts_holders(
    out: &mut ChainOut<Arc<u64, Global>>,
    held: &Arc<u64, Global>,
    count: u64,
) -> Result<bool, NoMemory>
    requires { IsOpen out.old.put }
{
    for _ in 0..count {
        let item = Arc::try_clone(held)?;
        if !puts(out, item) {
            return Ok(false);
        }
    }
    Ok(true)
}

// All that is inside is dropped with the two ends, whichever goes first, and without deep calls.
#[test]
fn dropped_with_messages_inside(rt: HostRuntime) -> Result<(), Fail> {
    let held = Arc::new(rt.alloc(), 7)?;
    for (segment, writer_first) in [(1, true), (64, false)] {
        let (mut out, inn) = fresh(rt.alloc(), segment)?;
        assert!(rt; puts_holders(&mut out, &held, MANY)?);
        assert_eq!(rt; Arc::strong_count(&held), MANY as usize + 1);
        if writer_first {
            drop(out);
            drop(inn);
        } else {
            drop(inn);
            drop(out);
        }
        assert_eq!(rt; Arc::strong_count(&held), 1, "at {segment}");
    }
    Ok(())
}
