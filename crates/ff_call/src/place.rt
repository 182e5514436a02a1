// The message of a broken rule, which names a place in a network.
ghost use Rattle.std.specs.Prelude.{drop};
ghost use Rattle.ff_call.specs.Messages.{place_text, rule_message, steps_text, Writes};

use crate::pieces::{write_number, write_piece};
use ff_io::{Failed, Sink};
use ff_net::{Path, RuleFault};

/// Writes which rule a network breaks, and where.
pub fn write_rule<E: Sink>(sink: &mut E, fault: &RuleFault) -> Result<(), Failed>
    ensures { Writes (E.taken sink.old) (E.taken sink.new) (E.faults sink.old) (E.faults sink.new)
        (rule_message fault.now.rule fault.now.path) result }
{
    write_number(sink, b"ffrun: rule N", fault.rule as u64, b" at ")?;
    write_place(sink, &fault.path)?;
    write_piece(sink, b"\n")
}

// Writes a place: child numbers with dots between them, or `top`.
fn write_place<E: Sink>(sink: &mut E, path: &Path) -> Result<(), Failed>
    ensures { Writes (E.taken sink.old) (E.taken sink.new) (E.faults sink.old) (E.faults sink.new)
        (place_text path.now) result }
{
    if path.len() == 0 {
        return write_piece(sink, b"top");
    }
    write_number(sink, b"", path.child(0) as u64, b"")?;
    write_steps(sink, path)
}

// Writes the child numbers behind the first, each behind a dot.
fn write_steps<E: Sink>(sink: &mut E, path: &Path) -> Result<(), Failed>
    ensures { Writes (E.taken sink.old) (E.taken sink.new) (E.faults sink.old) (E.faults sink.new)
        (steps_text (drop 1 path.now)) result }
{
    let len = path.len();
    for k in 1..len {
        write_number(sink, b".", path.child(k) as u64, b"")?;
    }
    Ok(())
}
