// Pieces of messages.
ghost use Rattle.std.specs.Prelude.{◌++◌, codes};
ghost use Rattle.std.specs.Fmt.{decimal};
ghost use Rattle.ff_call.specs.Messages.{memory_message, Writes};

use ff_io::{Failed, Sink, write_all};
use ff_words::Text;
use itoa::Buffer;

/// Writes a piece.
pub fn write_piece<E: Sink>(sink: &mut E, bytes: &[u8]) -> Result<(), Failed>
    ensures { Writes (E.taken sink.old) (E.taken sink.new) (E.faults sink.old) (E.faults sink.new)
        bytes.now result }
{
    write_all(sink, bytes)
}

/// Writes two pieces, one behind the other.
pub fn write_two<E: Sink>(sink: &mut E, first: &[u8], second: &[u8]) -> Result<(), Failed>
    ensures { Writes (E.taken sink.old) (E.taken sink.new) (E.faults sink.old) (E.faults sink.new)
        (first.now ++ second.now) result }
{
    write_piece(sink, first)?;
    write_piece(sink, second)
}

/// Writes three pieces, one behind another.
pub fn write_three<E: Sink>(
    sink: &mut E,
    first: &[u8],
    second: &[u8],
    third: &[u8],
) -> Result<(), Failed>
    ensures { Writes (E.taken sink.old) (E.taken sink.new) (E.faults sink.old) (E.faults sink.new)
        (first.now ++ second.now ++ third.now) result }
{
    write_two(sink, first, second)?;
    write_piece(sink, third)
}

/// Writes a number between two pieces.
pub fn write_number<E: Sink>(
    sink: &mut E,
    before: &[u8],
    n: u64,
    behind: &[u8],
) -> Result<(), Failed>
    ensures { Writes (E.taken sink.old) (E.taken sink.new) (E.faults sink.old) (E.faults sink.new)
        (before.now ++ decimal n ++ behind.now) result }
{
    let mut buffer = Buffer::new();
    write_three(sink, before, buffer.format(n).as_bytes(), behind)
}

/// Writes what every command says that runs out of memory.
pub fn write_memory<E: Sink>(sink: &mut E) -> Result<(), Failed>
    ensures { Writes (E.taken sink.old) (E.taken sink.new) (E.faults sink.old) (E.faults sink.new)
        memory_message result }
{
    write_piece(sink, b"ffrun: out of memory\n")
}

/// Writes a name between a piece and the end of the line.
pub fn write_named<E: Sink>(sink: &mut E, before: &[u8], name: &Text) -> Result<(), Failed>
    ensures { Writes (E.taken sink.old) (E.taken sink.new) (E.faults sink.old) (E.faults sink.new)
        (before.now ++ name.now ++ codes "\n") result }
{
    write_three(sink, before, name.as_str().as_bytes(), b"\n")
}
