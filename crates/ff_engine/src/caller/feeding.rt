// Messages to the first ring.
ghost use Rattle.std.specs.Prelude.{◌≡◌, ◌≢◌, ◌++◌, ◌∷◌, [], None, OnOk, OnErr};
ghost use Rattle.ff_rec.specs.Streams.{IsOpen};
ghost use Rattle.ff_rec.specs.declared.msg.Msg.TheVariants.{Abort};
ghost use Rattle.ff_ring.specs.Ends.{waiting_of};
ghost use Rattle.ff_engine.specs.Callers.{GoesOn, SameRings, TakesMore, Feeds};
ghost use Rattle.ff_engine.specs.Seen.{caller_of};

use crate::caller::Caller;
use ff_io::Sink;
use ff_port::{Outbox, Put};
use ff_rec::{Msg, Record};
use ff_stream::Halt;
use std::sync::Wait;

impl Caller {
    /// Puts a message on the first ring. Until there is room, what comes is shown.
    #[inline(always)]
    pub(crate) fn feed<R: Wait, O: Sink>(
        &mut self,
        rt: &R,
        m: Msg<Record>,
        sink: &mut O,
    ) -> Result<(), Halt>
        requires { IsOpen (caller_of self.old).put }
        ensures put { OnOk result ((caller_of self.new).put ≡ (caller_of self.old).put ++ m ∷ []) }
        ensures stays { OnErr result ((caller_of self.new).put ≡ (caller_of self.old).put) }
        ensures goes { GoesOn (caller_of self.old) result (caller_of self.new)
            (O.taken sink.old) (O.taken sink.new) (O.faults sink.old) (O.faults sink.new) }
    {
        match self.try_feed(m) {
            None => Ok(()),
            Some(back) => self.feed_late(rt, back, sink),
        }
    }

    // Puts a message on the first ring. Where there is no room, it comes back.
    #[inline(always)]
    fn try_feed(&mut self, m: Msg<Record>) -> Option<Msg<Record>>
        requires { IsOpen (caller_of self.old).put }
        ensures { Feeds (caller_of self.old) m result (caller_of self.new) }
    {
        match self.first.try_put(m) {
            Put::Done => None,
            Put::Full(back) | Put::NoMemory(back) => Some(back),
        }
    }

    // Puts a message on the first ring, which is full.
    #[inline(never)]
    fn feed_late<R: Wait, O: Sink>(
        &mut self,
        rt: &R,
        m: Msg<Record>,
        sink: &mut O,
    ) -> Result<(), Halt>
        requires { IsOpen (caller_of self.old).put }
        ensures put { OnOk result ((caller_of self.new).put ≡ (caller_of self.old).put ++ m ∷ []) }
        ensures stays { OnErr result ((caller_of self.new).put ≡ (caller_of self.old).put) }
        ensures goes { GoesOn (caller_of self.old) result (caller_of self.new)
            (O.taken sink.old) (O.taken sink.new) (O.faults sink.old) (O.faults sink.new) }
    {
        self.pause.reset();
        let mut m = m;
        for _ in rt.forever() {
            self.turn(rt, sink)?;
            match self.try_feed(m) {
                None => return Ok(()),
                Some(back) => m = back,
            }
        }
        unreachable!()
    }

    /// Puts Abort on the first ring, and takes what comes up to the end. Nothing of it is shown.
    pub(crate) fn stop<R: Wait>(&mut self, rt: &R)
        requires { IsOpen (caller_of self.old).put }
        ensures put { (caller_of self.new).put ≡ (caller_of self.old).put ++ Abort ∷ [] }
        ensures more { TakesMore (caller_of self.old) (caller_of self.new) }
        ensures rings { SameRings (caller_of self.old) (caller_of self.new) }
        ensures end { (caller_of self.new).end ≢ None }
        ensures handed { waiting_of self.new.first ≡ 0 }
    {
        self.feed_dropping(rt, Msg::Abort);
        self.drop_rest(rt);
        self.hand_over(rt);
    }

    // Puts a message on the first ring. Until there is room, what comes is dropped.
    fn feed_dropping<R: Wait>(&mut self, rt: &R, m: Msg<Record>)
        requires { IsOpen (caller_of self.old).put }
        ensures put { (caller_of self.new).put ≡ (caller_of self.old).put ++ m ∷ [] }
        ensures more { TakesMore (caller_of self.old) (caller_of self.new) }
        ensures rings { SameRings (caller_of self.old) (caller_of self.new) }
    {
        let mut m = m;
        for _ in rt.forever() {
            match self.try_feed(m) {
                None => return,
                Some(back) => m = back,
            }
            self.drop_ready(rt);
        }
        unreachable!()
    }

    /// Hands over all that waits. The units wait for the end of the stream, which may be among it.
    pub(crate) fn hand_over<R: Wait>(&mut self, rt: &R)
        ensures same { caller_of self.new ≡ caller_of self.old }
        ensures handed { waiting_of self.new.first ≡ 0 }
    {
        for _ in rt.forever() {
            if self.first.flush() {
                break;
            }
            self.rest(rt);
        }
    }
}
