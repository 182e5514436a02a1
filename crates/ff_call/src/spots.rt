// Messages that name a byte of a text, a statement of a program or a line of the input.
ghost use Rattle.std.specs.Prelude.{◌≡◌};
ghost use Rattle.ff_call.specs.Messages.{byte_message, kind_name, line_message, program_message, statement_message, Writes};

use crate::pieces::{write_number, write_piece, write_two};
use ff_io::{Failed, Sink};
use ff_rec::LineFault;
use ff_text::TextKind;

/// Writes what is wrong at a byte.
pub fn write_byte<E: Sink>(sink: &mut E, at: usize, name: &[u8]) -> Result<(), Failed>
    ensures { Writes (E.taken sink.old) (E.taken sink.new) (E.faults sink.old) (E.faults sink.new)
        (byte_message at name.now) result }
{
    write_number(sink, b"ffrun: byte ", at as u64, b": ")?;
    write_two(sink, name, b"\n")
}

/// What is wrong, in words.
pub fn name_of(kind: TextKind) -> &'static [u8]
    ensures { result.now ≡ kind_name kind }
{
    match kind {
        TextKind::BadByte => b"bad byte",
        TextKind::BadToken => b"unexpected token",
        TextKind::UnknownName => b"unknown name",
        TextKind::Range => b"out of range",
        TextKind::Deep => b"too deep",
        TextKind::End => b"unexpected end",
        TextKind::Large => b"too large",
        TextKind::TakenName => b"name taken",
    }
}

/// Writes which limit an input passes, and on which line.
pub fn write_line<E: Sink>(sink: &mut E, fault: &LineFault) -> Result<(), Failed>
    ensures { Writes (E.taken sink.old) (E.taken sink.new) (E.faults sink.old) (E.faults sink.new)
        (line_message fault.now) result }
{
    match fault {
        LineFault::TooLong(line) => write_number(sink, b"ffrun: line ", *line, b": too long\n"),
        LineFault::TooManyFields(line) => {
            write_number(sink, b"ffrun: line ", *line, b": too many fields\n")
        }
        LineFault::InputTooLong => write_piece(sink, b"ffrun: input too long\n"),
    }
}

/// Writes which statement is none of the grammar.
pub fn write_statement<E: Sink>(sink: &mut E, statement: u32) -> Result<(), Failed>
    ensures { Writes (E.taken sink.old) (E.taken sink.new) (E.faults sink.old) (E.faults sink.new)
        (statement_message statement) result }
{
    write_number(sink, b"ffrun: statement ", statement as u64, b": syntax\n")
}

/// Writes which rule a program breaks, and at which statement.
pub fn write_program_rule<E: Sink>(sink: &mut E, rule: u8, statement: u32) -> Result<(), Failed>
    ensures { Writes (E.taken sink.old) (E.taken sink.new) (E.faults sink.old) (E.faults sink.new)
        (program_message rule statement) result }
{
    write_number(sink, b"ffrun: statement ", statement as u64, b": rule M")?;
    write_number(sink, b"", rule as u64, b"\n")
}
