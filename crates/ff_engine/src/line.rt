// How a line of threads takes the records of a stream.
ghost use Rattle.std.specs.Prelude.{◌≡◌};
ghost use Rattle.ff_rec.specs.Streams.{carried, items};
ghost use Rattle.ff_engine.specs.Seen.{caller_of};

use crate::caller::Caller;
use crate::crew::Crew;
use ff_io::Sink;
use ff_node::Node;
use ff_rec::{Msg, Record};
use ff_steps::NetUnit;
use ff_stream::{Halt, Intake};
use std::sync::Wait;

/// The units of a network in threads of their own, between the two ends of the calling thread, which feeds them as it
/// reads and writes what comes. It is to be ended by `finish` or `give_up`, which join the threads.
pub(crate) struct Line<N: Node, R: Wait + Drop> {
    pub(crate) caller: Caller,
    pub(crate) crew: Crew<NetUnit<N>, R>,
    // The right to wait.
    pub(crate) rt: R,
    // Records alone were put so far.
    ghost open: { (caller_of caller).put ≡ carried (items (caller_of caller).put) },
}

impl<N: Node, R: Wait + Drop> Intake<N> for Line<N, R> {
    ghost use Rattle.ff_engine.specs.Networks.{HasFed, HasStopped};
    ghost use Rattle.ff_engine.specs.Seen.{caller_of};

    ghost stands = { λ j l xs front. HasFed N.does j (caller_of l.caller) l.crew xs front };

    ghost halted = { λ j l halt xs front. HasStopped N.does j (caller_of l.caller) l.crew halt xs front };

    #[inline(always)]
    fn take<O: Sink>(&mut self, r: Record, sink: &mut O) -> Result<(), Halt> {
        if self.caller.is_cut() {
            return Err(Halt::NoMemory);
        }
        self.caller.feed(&self.rt, Msg::Item(r), sink)
    }

    fn pause<O: Sink>(&mut self, sink: &mut O) -> Result<(), Halt> {
        self.caller.show(&self.rt, sink)?;
        if self.caller.is_cut() {
            return Err(Halt::NoMemory);
        }
        Ok(())
    }

    fn drops(&self) -> bool {
        false
    }
}
