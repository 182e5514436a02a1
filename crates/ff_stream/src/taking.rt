// A stream is taken in.
ghost use Rattle.std.specs.Prelude.{◌≡◌, ◌<◌, [], length, IfOk, IfErr};
ghost use Rattle.ff_rec.specs.Reading.{opening};
ghost use Rattle.ff_net.specs.Versions.{line_bytes, input_bytes};
ghost use Rattle.ff_stream.specs.Jobs.{Job};
ghost use Rattle.ff_stream.specs.Streams.{streams};
ghost use Rattle.ff_stream.specs.Takings.{IsTaken, IsHalted, source_count};
ghost use Rattle.ff_stream.specs.Works.{halt_count};

use crate::limits::line_limit;
use crate::reading::{take_all, take_last};
use crate::{Halt, Intake, Stop};
use ff_io::{Sink, Source};
use ff_net::Version;
use ff_node::Node;
use ff_rec::{LONGEST_INPUT, LineReader, NoMemory, reading_is_cutting};
use std::alloc::Global;

/// How many bytes a call reads at once.
const PIECE: usize = 65_536;

/// Reads the records of a source within the limits of a version and hands them to the work, to the end of the input, a
/// read that failed or a limit that was passed.
pub fn take_stream<N: Node, W: Intake<N>, I: Source, O: Sink>(
    alloc: Global,
    version: Version,
    work: &mut W,
    source: &mut I,
    sink: &mut O,
) -> Result<Stop, Halt>
    ensures ok { IfOk result (λ stop. (j : Job N) → j.version ≡ version
        → W.stands j work.old [] [] → IsTaken W.stands j work.new stop
        (streams I.left I.ended I.faults O.taken source.old source.new sink.old sink.new)) }
    ensures err { IfErr result (λ halt. (j : Job N) → j.version ≡ version
        → W.stands j work.old [] [] → IsHalted W.stands W.halted j halt work.new
        (streams I.left I.ended I.faults O.taken source.old source.new sink.old sink.new)) }
    ensures input_faults { I.faults source.new ≡ source_count (I.faults source.old) result }
    ensures output_faults { O.faults sink.new ≡ halt_count (O.faults sink.old) result }
{
    let (mut room, mut reader) = open_reading(alloc, version)?;
    reading_is_cutting();
    let stop = take_all(alloc, &mut room, &mut reader, work, source, sink)?;
    take_last(alloc, reader, stop, work, sink)?;
    Ok(stop)
}

// Room for what a call reads, and a reader that took nothing yet.
fn open_reading(alloc: Global, version: Version) -> Result<(Vec<u8>, LineReader), NoMemory>
    ensures room { IfOk result (λ r. 0 < length r.0.items) }
    ensures reader { IfOk result (λ r. r.1 ≡ opening (line_bytes version) input_bytes) }
{
    let room = vec![in alloc; 0u8; PIECE]?;
    let reader = LineReader::new(alloc, line_limit(version), LONGEST_INPUT)?;
    Ok((room, reader))
}
