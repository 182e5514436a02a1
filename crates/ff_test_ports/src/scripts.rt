// Messages that are written as short texts.
ghost use Rattle.std.specs.Prelude.{◌≡◌, [], length, map, replicate, IfOk, OnOk, IfSome, IsFalse};
ghost use Rattle.ff_rec.specs.Streams.{IsOpen};
ghost use Rattle.ff_port.specs.Queues.{put_of};

use ff_port::{Inbox, Outbox, PlainQueue, Put};
use ff_rec::{Field, FieldFault, Msg, NoMemory, Record};
use std::alloc::{AllocError, Global};

/// How many messages a queue holds.
pub(crate) const ROOM: usize = 512;

/// A queue that holds the messages of a script, in which a letter stands for the record of that letter, `|` for a Mark, a digit for a
/// Pick, and at the end `.` for Eos or `!` for Abort.
pub fn queue_of(alloc: Global, script: &str) -> Result<PlainQueue<Record>, NoMemory>
    ensures { IfOk result (λ q. q.got ≡ []) }
{
    let mut queue = PlainQueue::new(alloc, ROOM)?;
    for letter in script.as_bytes() {
        let m = message_of(alloc, *letter)?;
        if put(&mut queue, m)? {
            break;
        }
    }
    Ok(queue)
}

// Puts a message, and tells whether it is the last of a stream.
fn put(queue: &mut PlainQueue<Record>, m: Msg<Record>) -> Result<bool, NoMemory>
    requires { IsOpen (put_of queue.old) }
    ensures open { IfOk result (λ ends. IsFalse ends → IsOpen (put_of queue.new)) }
    ensures got { queue.new.got ≡ queue.old.got }
{
    let ends = matches!(m, Msg::Eos | Msg::Abort);
    match queue.try_put(m) {
        Put::Done => Ok(ends),
        Put::Full(_) | Put::NoMemory(_) => Err(NoMemory),
    }
}

// What a letter of a script stands for.
fn message_of(alloc: Global, letter: u8) -> Result<Msg<Record>, NoMemory> {
    match letter {
        b'.' => Ok(Msg::Eos),
        b'!' => Ok(Msg::Abort),
        b'|' => Ok(Msg::Mark),
        b'0'..=b'9' => Ok(Msg::Pick(u32::from(letter - b'0'))),
        _ => Ok(Msg::Item(record_of(alloc, letter)?)),
    }
}

// The record of one field, which is this byte.
fn record_of(alloc: Global, byte: u8) -> Result<Record, NoMemory> {
    match Field::new(alloc, &[byte]) {
        Ok(field) => Record::one(alloc, &field),
        Err(FieldFault::BadByte(_) | FieldFault::NoMemory) => Err(NoMemory),
    }
}

/// What is inside a queue, as a script. It is taken out.
pub fn script_of(alloc: Global, queue: &mut PlainQueue<Record>) -> Result<String, AllocError> {
    let mut script = String::new(alloc);
    while let Some(m) = queue.try_take() {
        match m {
            Msg::Item(r) => script.push_str(str::from_utf8(r.joined()).unwrap_or("?"))?,
            Msg::Mark => script.push('|')?,
            Msg::Pick(w) => script.push(char::from_digit(w % 10, 10).unwrap_or('?'))?,
            Msg::Eos => script.push('.')?,
            Msg::Abort => script.push('!')?,
        }
    }
    Ok(script)
}
