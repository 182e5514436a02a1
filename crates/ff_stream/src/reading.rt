// What a source gives is handed to the work.
ghost use Rattle.std.specs.Prelude.{◌≡◌, ◌<◌, [], None, length, IfOk, IfErr, OnOk, OnErr};
ghost use Rattle.ff_stream.specs.Reads.{Reads, ReadsSome, StopsAt, last_of};
ghost use Rattle.ff_stream.specs.Takings.{source_count};
ghost use Rattle.ff_stream.specs.Works.{Goes, Halts, halt_count};

use crate::piece::{hand_all, take_piece};
use crate::{Halt, Intake, Stop};
use ff_io::{Sink, Source};
use ff_node::Node;
use ff_rec::LineReader;
use std::alloc::Global;
use std::collections::VecDeque;

/// Reads pieces into `room` and hands their records to the work, until no more is to be read.
pub(crate) fn take_all<N: Node, W: Intake<N>, I: Source, O: Sink>(
    alloc: Global,
    room: &mut [u8],
    reader: &mut LineReader,
    work: &mut W,
    source: &mut I,
    sink: &mut O,
) -> Result<Stop, Halt>
    requires room { 0 < length room.old }
    requires reader { reader.old.fault ≡ None }
    ensures ok { OnOk result (Reads W.stands work.old reader.old work.new reader.new
        (I.left source.old) (I.left source.new) (O.taken sink.old) (O.taken sink.new)) }
    ensures stop { IfOk result (λ stop. StopsAt stop reader.new.fault
        (I.ended source.new) (I.left source.new)) }
    ensures err { IfErr result (λ halt. ReadsSome W.stands W.halted
        work.old reader.old halt work.new
        (I.left source.old) (I.left source.new) (O.taken sink.old) (O.taken sink.new)) }
    ensures input_faults { I.faults source.new ≡ source_count (I.faults source.old) result }
    ensures output_faults { O.faults sink.new ≡ halt_count (O.faults sink.old) result }
{
    let mut queue = VecDeque::new(alloc);
    'pieces: loop {
        let Ok(got) = source.read(room) else {
            return Ok(Stop::Read);
        };
        if got == 0 {
            return Ok(Stop::End);
        }
        if let Some(fault) = take_piece(&mut queue, &room[..got], reader, work, sink)? {
            return Ok(Stop::Line(fault));
        }
        if source.may_wait() {
            work.pause(sink)?;
        }
    }
}

/// Hands the record of a last line without a newline to the work. Where the reading stopped before the end, that line
/// isn't used.
pub(crate) fn take_last<N: Node, W: Intake<N>, O: Sink>(
    alloc: Global,
    reader: LineReader,
    stop: Stop,
    work: &mut W,
    sink: &mut O,
) -> Result<(), Halt>
    requires { stop ≡ Stop.End → reader.fault ≡ None }
    ensures ok { OnOk result (Goes W.stands work.old (last_of stop reader.line) work.new
        (O.taken sink.old) (O.taken sink.new)) }
    ensures err { IfErr result (λ halt. Halts W.stands W.halted work.old
        (last_of stop reader.line) halt work.new (O.taken sink.old) (O.taken sink.new)) }
    ensures at_the_end { OnErr result (stop ≡ Stop.End) }
    ensures counts { O.faults sink.new ≡ halt_count (O.faults sink.old) result }
{
    let Stop::End = stop else {
        return Ok(());
    };
    let mut records = Vec::new(alloc);
    reader.finish(&mut records)?;
    hand_all(&mut VecDeque::from(records), work, sink)
}
