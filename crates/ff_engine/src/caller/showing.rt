// What comes over the last ring.
ghost use Rattle.std.specs.Prelude.{◌≡◌, ◌≢◌, [], false, None, OnOk};
ghost use Rattle.ff_engine.specs.Callers.{GoesOn, SameRings, TakesMore};
ghost use Rattle.ff_engine.specs.Seen.{caller_of};

use crate::caller::Caller;
use ff_io::Sink;
use ff_port::Outbox;
use ff_rec::Msg;
use ff_stream::Halt;
use std::sync::Wait;

/// How many messages are taken at once before the first ring is tried again.
const MOST_AT_ONCE: u32 = 1024;

impl Caller {
    /// Shows all that comes up to the end. The rest of the text is left to be written.
    pub(crate) fn drain<R: Wait, O: Sink>(&mut self, rt: &R, sink: &mut O) -> Result<(), Halt>
        ensures put { (caller_of self.new).put ≡ (caller_of self.old).put }
        ensures goes { GoesOn (caller_of self.old) result (caller_of self.new)
            (O.taken sink.old) (O.taken sink.new) (O.faults sink.old) (O.faults sink.new) }
        ensures end { OnOk result ((caller_of self.new).end ≢ None) }
    {
        for _ in rt.forever() {
            if self.end.is_some() {
                break;
            }
            self.turn(rt, sink)?;
        }
        Ok(())
    }

    /// Hands over what waits, shows what comes until all units rest, and writes it. Where text is held, nothing is to be
    /// shown, so that it waits for no unit.
    pub(crate) fn show<R: Wait, O: Sink>(&mut self, rt: &R, sink: &mut O) -> Result<(), Halt>
        ensures put { (caller_of self.new).put ≡ (caller_of self.old).put }
        ensures goes { GoesOn (caller_of self.old) result (caller_of self.new)
            (O.taken sink.old) (O.taken sink.new) (O.faults sink.old) (O.faults sink.new) }
        ensures written { OnOk result ((caller_of self.old).holds ≡ false
            → (caller_of self.new).text ≡ []) }
    {
        if self.holds {
            self.first.flush();
            return Ok(());
        }
        self.show_till_still(rt, sink)?;
        self.write_held(sink)
    }

    // Shows what comes until all units rest and nothing is left. There is no limit to that: a unit that works is waited
    // for, since the next read may block for long, and what the unit sends is to be shown before.
    fn show_till_still<R: Wait, O: Sink>(&mut self, rt: &R, sink: &mut O) -> Result<(), Halt>
        ensures put { (caller_of self.new).put ≡ (caller_of self.old).put }
        ensures goes { GoesOn (caller_of self.old) result (caller_of self.new)
            (O.taken sink.old) (O.taken sink.new) (O.faults sink.old) (O.faults sink.new) }
    {
        self.pause.reset();
        for _ in rt.forever() {
            let still = self.is_still();
            if self.show_some(rt, still, sink)? {
                return Ok(());
            }
        }
        unreachable!()
    }

    // Shows what has come, and answers whether that was all: whether nothing had come, and nothing comes any more. Where
    // something may, it pauses.
    fn show_some<R: Wait, O: Sink>(
        &mut self,
        rt: &R,
        still: bool,
        sink: &mut O,
    ) -> Result<bool, Halt>
        ensures put { (caller_of self.new).put ≡ (caller_of self.old).put }
        ensures goes { GoesOn (caller_of self.old) result (caller_of self.new)
            (O.taken sink.old) (O.taken sink.new) (O.faults sink.old) (O.faults sink.new) }
    {
        if self.take_ready(sink)? {
            self.pause.reset();
            return Ok(false);
        }
        if still || self.end.is_some() {
            return Ok(true);
        }
        self.watch(rt);
        Ok(false)
    }

    /// Shows what has come. Where nothing has, it pauses.
    pub(crate) fn turn<R: Wait, O: Sink>(&mut self, rt: &R, sink: &mut O) -> Result<(), Halt>
        ensures put { (caller_of self.new).put ≡ (caller_of self.old).put }
        ensures goes { GoesOn (caller_of self.old) result (caller_of self.new)
            (O.taken sink.old) (O.taken sink.new) (O.faults sink.old) (O.faults sink.new) }
    {
        if self.take_ready(sink)? {
            self.pause.reset();
        } else {
            self.rest(rt);
        }
        Ok(())
    }

    // Writes what came.
    fn write_held<O: Sink>(&mut self, sink: &mut O) -> Result<(), Halt>
        requires { (caller_of self.old).holds ≡ false }
        ensures put { (caller_of self.new).put ≡ (caller_of self.old).put }
        ensures goes { GoesOn (caller_of self.old) result (caller_of self.new)
            (O.taken sink.old) (O.taken sink.new) (O.faults sink.old) (O.faults sink.new) }
        ensures written { OnOk result ((caller_of self.new).text ≡ []) }
        ensures end { (caller_of self.new).end ≡ (caller_of self.old).end }
    {
        Ok(self.text.write(sink)?)
    }

    // Takes what has come and prints it. It answers whether something came.
    #[inline(always)]
    fn take_ready<O: Sink>(&mut self, sink: &mut O) -> Result<bool, Halt>
        ensures put { (caller_of self.new).put ≡ (caller_of self.old).put }
        ensures goes { GoesOn (caller_of self.old) result (caller_of self.new)
            (O.taken sink.old) (O.taken sink.new) (O.faults sink.old) (O.faults sink.new) }
    {
        for taken in 0..MOST_AT_ONCE {
            if !self.receive(sink)? {
                return Ok(taken > 0);
            }
        }
        Ok(true)
    }

    // Takes a message and prints what it carries. It answers whether one came.
    #[inline(always)]
    fn receive<O: Sink>(&mut self, sink: &mut O) -> Result<bool, Halt>
        ensures put { (caller_of self.new).put ≡ (caller_of self.old).put }
        ensures goes { GoesOn (caller_of self.old) result (caller_of self.new)
            (O.taken sink.old) (O.taken sink.new) (O.faults sink.old) (O.faults sink.new) }
    {
        let Some(m) = self.take() else {
            return Ok(false);
        };
        if let Msg::Item(r) = m {
            self.text.print(&r)?;
            self.write_much(sink)?;
        }
        Ok(true)
    }

    // Writes what came where it is much, unless it is held.
    #[inline(always)]
    fn write_much<O: Sink>(&mut self, sink: &mut O) -> Result<(), Halt>
        ensures put { (caller_of self.new).put ≡ (caller_of self.old).put }
        ensures goes { GoesOn (caller_of self.old) result (caller_of self.new)
            (O.taken sink.old) (O.taken sink.new) (O.faults sink.old) (O.faults sink.new) }
    {
        if self.holds {
            return Ok(());
        }
        Ok(self.text.write_full(sink)?)
    }

    /// Takes what comes up to the end. Nothing of it is shown.
    pub(crate) fn drop_rest<R: Wait>(&mut self, rt: &R)
        ensures put { (caller_of self.new).put ≡ (caller_of self.old).put }
        ensures more { TakesMore (caller_of self.old) (caller_of self.new) }
        ensures rings { SameRings (caller_of self.old) (caller_of self.new) }
        ensures end { (caller_of self.new).end ≢ None }
    {
        for _ in rt.forever() {
            if self.end.is_some() {
                break;
            }
            self.drop_ready(rt);
        }
    }

    /// Takes a message and drops it. Where none has come, it pauses.
    pub(crate) fn drop_ready<R: Wait>(&mut self, rt: &R)
        ensures put { (caller_of self.new).put ≡ (caller_of self.old).put }
        ensures more { TakesMore (caller_of self.old) (caller_of self.new) }
        ensures rings { SameRings (caller_of self.old) (caller_of self.new) }
    {
        if self.take().is_some() {
            self.pause.reset();
        } else {
            self.rest(rt);
        }
    }
}
