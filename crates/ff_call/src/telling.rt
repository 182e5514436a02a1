// What a call says on its second sink, in one write.
ghost use Rattle.std.specs.Prelude.{◌++◌};
ghost use Rattle.ff_call.specs.Messages.{message, rejected_line, said, Tells, Writes};
ghost use Rattle.ff_call.specs.Statuses.{rejected_by};

use crate::fault::Fault;
use crate::gathered::Gathered;
use crate::pieces::write_number;
use ff_io::{Failed, Sink, write_all};
use std::alloc::Global;

/// Bytes beside the name of a file in the longest of what a call says.
const BESIDE_A_NAME: usize = 256;

/// Room for what a call with these words says, so that no memory is needed for it when the call ends. Where memory is short
/// there is none.
pub fn room_for(alloc: Global, words: &[String]) -> Vec<u8> {
    let longest = words.iter().map(|word| word.len()).max().unwrap_or(0);
    match Vec::with_capacity(alloc, longest.saturating_add(BESIDE_A_NAME)) {
        Ok(room) => room,
        Err(_) => Vec::new(alloc),
    }
}

/// Tells how a call ended: the message of its fault, if one came, and behind it how many records were rejected. All of it is
/// gathered in `room` and goes in one write, so that lines of other programs stand before or behind it; where memory is short
/// it goes in pieces. What a failing sink doesn't take is lost.
pub fn tell<E: Sink>(ending: &Result<u64, Fault>, room: Vec<u8>, err: &mut E)
    ensures { Tells (E.taken err.old) (E.taken err.new) (E.faults err.old) (E.faults err.new)
        (said ending.now) }
{
    let mut gathered = Gathered::new(room);
    let _ = match say(ending, &mut gathered) {
        Ok(()) => write_all(err, gathered.bytes()),
        Err(Failed) => say(ending, err),
    };
}

// Writes all that is said.
fn say<E: Sink>(ending: &Result<u64, Fault>, sink: &mut E) -> Result<(), Failed>
    ensures { Writes (E.taken sink.old) (E.taken sink.new) (E.faults sink.old) (E.faults sink.new)
        (said ending.now) result }
{
    match ending {
        Ok(rejected) => write_rejected(sink, *rejected),
        Err(fault) => say_fault(fault, sink),
    }
}

// Writes the message of a fault, and behind it the line of rejected records.
fn say_fault<E: Sink>(fault: &Fault, sink: &mut E) -> Result<(), Failed>
    ensures { Writes (E.taken sink.old) (E.taken sink.new) (E.faults sink.old) (E.faults sink.new)
        (message fault.now ++ rejected_line (rejected_by fault.now)) result }
{
    fault.write(sink)?;
    write_rejected(sink, fault.rejected())
}

// Writes the line that tells how many records were rejected, if any was.
fn write_rejected<E: Sink>(sink: &mut E, rejected: u64) -> Result<(), Failed>
    ensures { Writes (E.taken sink.old) (E.taken sink.new) (E.faults sink.old) (E.faults sink.new)
        (rejected_line rejected) result }
{
    if rejected == 0 {
        return Ok(());
    }
    write_number(sink, b"ffrun: ", rejected, b" rejected\n")
}
