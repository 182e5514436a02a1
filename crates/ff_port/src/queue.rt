// A queue for two units on one thread, which step in turn.
ghost use Rattle.std.specs.Prelude.{◌≡◌, ◌+◌, ◌<◌, ◌≤◌, [], length, true, IsTrue, ◌↔◌, IfOk, OnOk, OnErr};
ghost use Rattle.std.proofs.Common.{deque_len, deque_capacity};
ghost use Rattle.ff_rec.specs.Streams.{IsOpen, IsOpenMsg};
ghost use Rattle.ff_port.specs.Channels.{Takes, Puts};
ghost use Rattle.ff_port.specs.Queues.{empty_queue, put_of, room_of, waiting_of, QueueTakes, QueuePuts};
ghost use Rattle.ff_port.specs.Kept.{Grows};

use crate::{Inbox, Outbox, Past, Put};
use ff_rec::{Msg, NoMemory};
use std::alloc::Global;
use std::collections::VecDeque;
use std::marker::Model;

/// A bounded queue, both ends of it in one value. What was put and what was got can be told of it, and it remembers neither.
/// Memory for one Eos or Abort is always kept.
#[derive(Drop)]
pub struct PlainQueue<T> {
    // The messages that were taken.
    got: Past<Msg<T>>,
    inside: VecDeque<Msg<T>>,
    cap: usize,
}

impl<T> Model for PlainQueue<T> {
    ghost use Rattle.std.proofs.Common.{deque_capacity};
    ghost use Rattle.ff_port.specs.Queues.{Queue};
    ghost use Rattle.ff_port.specs.Kept.{IsKept};

    ghost Value = { Queue T };

    ghost view = { λ q. record { got = q.got; inside = q.inside.items; cap = q.cap } };

    ghost invariant = { λ q. IsKept q.got q.inside.items (deque_capacity q.inside) q.cap };
}

impl<T: Drop> PlainQueue<T> {
    /// An empty queue of so many slots.
    pub fn new(alloc: Global, cap: usize) -> Result<PlainQueue<T>, NoMemory>
        requires { 1 ≤ cap }
        ensures { IfOk result (λ q. q ≡ empty_queue cap) }
    {
        Ok(PlainQueue {
            got: Past::new(),
            inside: VecDeque::with_capacity(alloc, 1)?,
            cap,
        })
    }
}

impl<T> PlainQueue<T> {
    /// How many messages are inside.
    pub fn len(&self) -> usize
        ensures len { result ≡ length self.now.inside }
        ensures within { length self.now.inside ≤ self.now.cap }
    {
        self.inside.len()
    }

    /// Whether no message is inside.
    pub fn is_empty(&self) -> bool
        ensures { IsTrue result ↔ (self.now.inside ≡ []) }
    {
        self.inside.is_empty()
    }

    /// Whether no slot is free.
    pub fn is_full(&self) -> bool
        ensures { IsTrue result ↔ (length self.now.inside ≡ self.now.cap) }
    {
        self.len() == self.cap
    }
}

impl<T> Inbox<T> for PlainQueue<T> {
    ghost use Rattle.std.specs.Prelude.{ℕ, length};

    ghost got = { λ q. q.got };

    ghost known = { λ q. length q.inside };

    ghost Link = { ℕ };

    ghost link = { λ q. q.cap };

    fn try_take(&mut self) -> Option<Msg<T>>
        ensures link { self.new.cap ≡ self.old.cap }
        ensures takes { Takes self.old.got (length self.old.inside) result
            self.new.got (length self.new.inside) }
        ensures exact { QueueTakes self.old result self.new }
    {
        let m = self.inside.pop_front()?;
        self.got.note(&m);
        Some(m)
    }
}

impl<T> Outbox<T> for PlainQueue<T> {
    ghost use Rattle.std.specs.Prelude.{ℕ, true};
    ghost use Rattle.ff_port.specs.Queues.{put_of, room_of, waiting_of};

    ghost put = { λ q. put_of q };

    ghost room = { λ q. room_of q };

    ghost waiting = { λ q. waiting_of q };

    ghost grows = { true };

    ghost Link = { ℕ };

    ghost link = { λ q. q.cap };

    fn try_put(&mut self, m: Msg<T>) -> Put<T>
        requires { IsOpen (put_of self.old) }
        ensures link { self.new.cap ≡ self.old.cap }
        ensures puts { Puts true (put_of self.old) (room_of self.old) m result
            (put_of self.new) (room_of self.new) }
        ensures exact { QueuePuts self.old m result self.new }
    {
        if self.inside.len() == self.cap {
            return Put::Full(m);
        }
        put_inside(&mut self.inside, m)
    }

    fn flush(&mut self) -> bool
        ensures link { self.new.cap ≡ self.old.cap }
        ensures puts { put_of self.new ≡ put_of self.old }
        ensures flushed { IsTrue result ↔ (waiting_of self.new ≡ 0) }
        ensures stays { self.new ≡ self.old }
        ensures all { IsTrue result }
    {
        true
    }
}

// Puts a message into a queue that isn't full.
fn put_inside<T>(inside: &mut VecDeque<Msg<T>>, m: Msg<T>) -> Put<T>
    requires room { deque_len inside.old < deque_capacity inside.old }
    ensures grows { Grows inside.old.items m result inside.new.items }
    ensures kept { IsOpenMsg m → length inside.new.items < deque_capacity inside.new }
{
    match make_room(inside, &m) {
        Ok(()) => {
            inside.push_back_reserved(m);
            Put::Done
        }
        Err(NoMemory) => Put::NoMemory(m),
    }
}

// Room for a message, and for one more where others may come behind it. Eos and Abort find their room kept.
fn make_room<T>(inside: &mut VecDeque<Msg<T>>, m: &Msg<T>) -> Result<(), NoMemory>
    requires room { deque_len inside.old < deque_capacity inside.old }
    ensures refused { OnErr result (IsOpenMsg m.now) }
    ensures stays { inside.new.items ≡ inside.old.items }
    ensures room { deque_len inside.new < deque_capacity inside.new }
    ensures kept { IsOpenMsg m.now
        → OnOk result (deque_len inside.new + 1 < deque_capacity inside.new) }
{
    match m {
        Msg::Eos | Msg::Abort => Ok(()),
        _ => {
            inside.reserve(2)?;
            Ok(())
        }
    }
}
