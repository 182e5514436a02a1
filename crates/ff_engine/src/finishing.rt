// How a line of threads is ended.
ghost use Rattle.std.specs.Prelude.{◌≡◌, ◌≢◌, ◌++◌, ◌∷◌, [], ℕ, List, None, OnOk, OnErr};
ghost use Rattle.ff_rec.specs.Lines.{Rec};
ghost use Rattle.ff_rec.specs.Streams.{IsOpen};
ghost use Rattle.ff_rec.specs.declared.msg.Msg.TheVariants.{Eos};
ghost use Rattle.ff_stream.specs.Endings.{output_count};
ghost use Rattle.ff_stream.specs.Jobs.{Job};
ghost use Rattle.ff_stream.specs.Works.{Ends, IsOpen as IsOpenRun};
ghost use Rattle.ff_stream.specs.declared.fault.Halt.{Halt};
ghost use Rattle.ff_engine.specs.Callers.{GoesOn, EndsOnce};
ghost use Rattle.ff_engine.specs.Conclusions.{Concludes};
ghost use Rattle.ff_engine.specs.Lines.{Linked};
ghost use Rattle.ff_engine.specs.Networks.{HasDoneTasks, HasFed, HasStopped, JoinsOnly, WorkedThrough};
ghost use Rattle.ff_engine.specs.Seen.{caller_of};

use crate::NetJob;
use crate::caller::Caller;
use crate::line::Line;
use crate::report::{all_ended_by_eos, any_over, ends_by_eos, report_of};
use ff_io::Sink;
use ff_node::Node;
use ff_port::End;
use ff_rec::Msg;
use ff_spawn::Spawner;
use ff_steps::NetUnit;
use ff_stream::{Halt, Report, RunFault};
use ff_unit::Unit;
use std::alloc::Global;
use std::sync::Wait;

impl<N: Node + Send + 'static, R: Wait + Drop + Send + 'static> Line<N, R> {
    /// Tells the units that no record comes any more, joins their threads, and writes all that they sent.
    pub(crate) fn finish<S: Spawner<NetJob<NetUnit<N>, R>>, O: Sink>(
        self,
        alloc: Global,
        by: &mut S,
        sink: &mut O,
    ) -> Result<Report, RunFault>
        requires { Linked (caller_of self.caller).writes self.crew (caller_of self.caller).reads }
        ensures ends { (j : Job N) (xs : List Rec) (front : List ℕ)
            → HasFed N.does j (caller_of self.caller) self.crew xs front
            → Ends j xs front (O.taken sink.old) (O.taken sink.new) result }
        ensures work { OnOk result ((j : Job N) (xs : List Rec) (front : List ℕ)
            → HasFed N.does j (caller_of self.caller) self.crew xs front
            → WorkedThrough j xs (S.worked by.old) (S.worked by.new)) }
        ensures tasks { OnOk result ((j : Job N) (xs : List Rec) (front : List ℕ)
            → HasFed N.does j (caller_of self.caller) self.crew xs front → HasDoneTasks N.does j xs) }
        ensures counts { O.faults sink.new ≡ output_count (O.faults sink.old) result }
        ensures joins { JoinsOnly (S.refused by.old) (S.refused by.new) (S.starts by.old) (S.starts by.new)
            (S.worked by.old) (S.worked by.new) }
    {
        let Line { caller, crew, rt } = self;
        let mut caller = caller;
        let shown = close(&mut caller, &rt, sink);
        caller.hand_over(&rt);
        let end = caller.end();
        let (first, last, mut text) = caller.into_parts();
        let mut units = crew.join(first, last, by);
        let over = any_over(&units);
        let report = conclude(alloc, shown, end, over, &mut units)?;
        text.write(sink)?;
        Ok(report)
    }

    /// Tells the units that the stream is cut off, and joins their threads. What was written begins an answer, whatever
    /// records follow.
    pub(crate) fn give_up<S: Spawner<NetJob<NetUnit<N>, R>>>(self, by: &mut S)
        requires { Linked (caller_of self.caller).writes self.crew (caller_of self.caller).reads }
        ensures opens { (j : Job N) (halt : Halt) (xs : List Rec) (front : List ℕ)
            → HasStopped N.does j (caller_of self.caller) self.crew halt xs front
            → IsOpenRun j halt xs front }
        ensures joins { JoinsOnly (S.refused by.old) (S.refused by.new) (S.starts by.old) (S.starts by.new)
            (S.worked by.old) (S.worked by.new) }
    {
        let Line { caller, crew, rt } = self;
        let mut caller = caller;
        caller.stop(&rt);
        let (first, last, _) = caller.into_parts();
        crew.join(first, last, by);
    }
}

// The answer of a run whose threads were joined, by whether all that came was printed, by how the stream and the units
// ended, and by whether one of them is over its limit of tasks.
fn conclude<U: Unit>(
    alloc: Global,
    shown: Result<(), Halt>,
    end: Option<End>,
    over: bool,
    units: &mut Vec<U>,
) -> Result<Report, RunFault>
    ensures { Concludes U.does shown end over units.old.items result }
{
    if let Err(halt) = shown {
        return Err(halt.into());
    }
    if !ends_by_eos(end) {
        return Err(RunFault::NoMemory);
    }
    if !all_ended_by_eos(units) {
        return Err(RunFault::NoMemory);
    }
    if over {
        return Err(RunFault::Tasks);
    }
    Ok(report_of(alloc, units)?)
}

// Tells the units that no more records come, and prints all that they send. The stream has come to its end then.
fn close<R: Wait, O: Sink>(caller: &mut Caller, rt: &R, sink: &mut O) -> Result<(), Halt>
    requires { IsOpen (caller_of caller.old).put }
    ensures put { OnOk result ((caller_of caller.new).put ≡ (caller_of caller.old).put ++ Eos ∷ []) }
    ensures end { (caller_of caller.new).end ≢ None }
    ensures ends { OnErr result (EndsOnce (caller_of caller.old).put (caller_of caller.new).put) }
    ensures goes { GoesOn (caller_of caller.old) result (caller_of caller.new)
        (O.taken sink.old) (O.taken sink.new) (O.faults sink.old) (O.faults sink.new) }
{
    match caller.feed(rt, Msg::Eos, sink) {
        Ok(()) => match caller.drain(rt, sink) {
            Ok(()) => Ok(()),
            Err(halt) => {
                caller.drop_rest(rt);
                Err(halt)
            }
        },
        Err(halt) => {
            caller.stop(rt);
            Err(halt)
        }
    }
}
