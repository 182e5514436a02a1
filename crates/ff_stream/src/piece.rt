// The records of a piece of a stream.
ghost use Rattle.std.specs.Prelude.{◌≡◌, ◌<◌, [], None, length, IfOk, IfErr, OnOk};
ghost use Rattle.ff_rec.specs.Reading.{given};
ghost use Rattle.ff_stream.specs.Reads.{HasTaken};
ghost use Rattle.ff_stream.specs.Works.{Goes, Halts, halt_count};

use crate::{Halt, Intake};
use ff_io::Sink;
use ff_node::Node;
use ff_rec::{FeedFault, LineFault, LineReader, NoMemory, Record};
use std::collections::VecDeque;
use std::mem;

/// How many bytes' records are made before they are handed over: few enough that they stay near.
const PART: usize = 8192;

/// Hands the records of a piece to the work. The answer is the limit that the piece passes behind them, if it does. Where
/// the work drops what comes, the piece is read for its limits alone.
pub(crate) fn take_piece<N: Node, W: Intake<N>, O: Sink>(
    queue: &mut VecDeque<Record>,
    piece: &[u8],
    reader: &mut LineReader,
    work: &mut W,
    sink: &mut O,
) -> Result<Option<LineFault>, Halt>
    requires some { 0 < length piece.now }
    requires empty { queue.old.items ≡ [] }
    requires going { reader.old.fault ≡ None }
    ensures ok { OnOk result (Goes W.stands work.old (given reader.old piece.now) work.new
        (O.taken sink.old) (O.taken sink.new)) }
    ensures used { OnOk result (queue.new.items ≡ []) }
    ensures err { IfErr result (λ halt. Halts W.stands W.halted work.old
        (given reader.old piece.now) halt work.new (O.taken sink.old) (O.taken sink.new)) }
    ensures read { IfOk result (λ fault. HasTaken reader.old reader.new piece.now fault) }
    ensures limit { reader.new.input_limit ≡ reader.old.input_limit }
    ensures counts { O.faults sink.new ≡ halt_count (O.faults sink.old) result }
{
    let mut rest = piece;
    while !rest.is_empty() {
        if work.drops() {
            return Ok(pass_over(reader, rest)?);
        }
        let (part, behind) = rest.split_at(rest.len().min(PART));
        if let Some(fault) = take_part(queue, part, reader, work, sink)? {
            return Ok(Some(fault));
        }
        rest = behind;
    }
    Ok(None)
}

// Hands the records of a part of it to the work.
fn take_part<N: Node, W: Intake<N>, O: Sink>(
    queue: &mut VecDeque<Record>,
    part: &[u8],
    reader: &mut LineReader,
    work: &mut W,
    sink: &mut O,
) -> Result<Option<LineFault>, Halt>
    requires empty { queue.old.items ≡ [] }
    requires going { reader.old.fault ≡ None }
    ensures ok { OnOk result (Goes W.stands work.old (given reader.old part.now) work.new
        (O.taken sink.old) (O.taken sink.new)) }
    ensures used { OnOk result (queue.new.items ≡ []) }
    ensures err { IfErr result (λ halt. Halts W.stands W.halted work.old
        (given reader.old part.now) halt work.new (O.taken sink.old) (O.taken sink.new)) }
    ensures read { IfOk result (λ fault. HasTaken reader.old reader.new part.now fault) }
    ensures limit { reader.new.input_limit ≡ reader.old.input_limit }
    ensures counts { O.faults sink.new ≡ halt_count (O.faults sink.old) result }
{
    let fault = cut_part(queue, reader, part)?;
    hand_all(queue, work, sink)?;
    Ok(fault)
}

// Puts the records of the lines that some bytes end into a queue that holds none. The answer is the limit that the bytes
// pass behind them, if they do.
fn cut_part(
    queue: &mut VecDeque<Record>,
    reader: &mut LineReader,
    bytes: &[u8],
) -> Result<Option<LineFault>, NoMemory>
    requires empty { queue.old.items ≡ [] }
    requires going { reader.old.fault ≡ None }
    ensures records { OnOk result (queue.new.items ≡ given reader.old bytes.now) }
    ensures read { IfOk result (λ fault. HasTaken reader.old reader.new bytes.now fault) }
    ensures limit { reader.new.input_limit ≡ reader.old.input_limit }
{
    // The reader wants a `Vec`; the room of the queue goes over into it and back.
    let none = VecDeque::new(*queue.allocator());
    let mut records = Vec::from(mem::replace(queue, none));
    let fault = match reader.feed(bytes, &mut records) {
        Ok(()) => None,
        Err(FeedFault::Line(fault)) => Some(fault),
        Err(FeedFault::NoMemory) => return Err(NoMemory),
    };
    *queue = VecDeque::from(records);
    Ok(fault)
}

// Reads some bytes for their limits alone. The answer is the limit that they pass, if they do.
fn pass_over(reader: &mut LineReader, bytes: &[u8]) -> Result<Option<LineFault>, NoMemory>
    requires { reader.old.fault ≡ None }
    ensures read { IfOk result (λ fault. HasTaken reader.old reader.new bytes.now fault) }
    ensures limit { reader.new.input_limit ≡ reader.old.input_limit }
{
    match reader.pass_over(bytes) {
        Ok(()) => Ok(None),
        Err(FeedFault::Line(fault)) => Ok(Some(fault)),
        Err(FeedFault::NoMemory) => Err(NoMemory),
    }
}

/// Hands these records to the work, one after another.
pub(crate) fn hand_all<N: Node, W: Intake<N>, O: Sink>(
    queue: &mut VecDeque<Record>,
    work: &mut W,
    sink: &mut O,
) -> Result<(), Halt>
    ensures ok { OnOk result (Goes W.stands work.old queue.old.items work.new
        (O.taken sink.old) (O.taken sink.new)) }
    ensures used { OnOk result (queue.new.items ≡ []) }
    ensures err { IfErr result (λ halt. Halts W.stands W.halted work.old
        queue.old.items halt work.new (O.taken sink.old) (O.taken sink.new)) }
    ensures counts { O.faults sink.new ≡ halt_count (O.faults sink.old) result }
{
    while let Some(r) = queue.pop_front() {
        work.take(r, sink)?;
    }
    Ok(())
}
