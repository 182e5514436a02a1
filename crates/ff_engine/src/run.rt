// A network by threads.
ghost use Rattle.std.specs.Prelude.{◌≡◌, ◌≤◌, ◌+◌, List, length, Err, IfOk, OnOk};
ghost use Rattle.ff_rec.specs.Lines.{Rec};
ghost use Rattle.ff_net.specs.Counts.{units};
ghost use Rattle.ff_net.specs.Tree.{tree_of};
ghost use Rattle.ff_spawn.specs.Counts.{RoseBy};
ghost use Rattle.ff_stream.specs.Endings.{Told};
ghost use Rattle.ff_stream.specs.Jobs.{job};
ghost use Rattle.ff_stream.specs.Streams.{streams};
ghost use Rattle.ff_engine.specs.Networks.{HasDoneTasks};
ghost use Rattle.ff_engine.specs.Runs.{NetRan, CountsNetInput, refused_count, net_output_count};
ghost use Rattle.ff_engine.specs.Starts.{RanOverRings};

use crate::laws::plans_keep_laws;
use crate::line::Line;
use crate::running::run_line;
use crate::starting::{prepare, start};
use crate::{Delivery, NetFault, NetJob};
use ff_io::{Sink, Source};
use ff_net::Checked;
use ff_node::Node;
use ff_spawn::Spawner;
use ff_steps::NetUnit;
use ff_stream::{Ending, RunFault};
use std::alloc::Global;
use std::sync::Wait;

/// Runs a network over the records of a source, each of its units in a thread of its own, and writes the text of what it
/// sends to a sink: as the records come, or with a wrap once all units have ended. A wrap may have `limit` tasks. Each ring
/// between two threads holds about `cap` messages, which `delivery` says when to hand over. Threads wait by `rt`.
pub fn run_net<
    N: Node + Send + 'static,
    R: Wait + Clone + Drop + Send + 'static,
    I: Source,
    O: Sink,
    S: Spawner<NetJob<NetUnit<N>, R>>,
>(
    rt: &R,
    alloc: Global,
    checked: &Checked<N>,
    cap: u32,
    delivery: Delivery,
    limit: u64,
    keep: bool,
    source: &mut I,
    sink: &mut O,
    spawner: &mut S,
) -> Result<Ending, NetFault>
    requires low { 1 ≤ cap }
    requires high { cap ≤ 4096 }
    ensures run { NetRan (job N.does (tree_of checked.now.net) checked.now.version limit keep)
        (streams I.left I.ended I.faults O.taken source.old source.new sink.old sink.new) result }
    ensures work { IfOk result (λ ending. Told (job N.does (tree_of checked.now.net) checked.now.version limit keep)
        (streams I.left I.ended I.faults O.taken source.old source.new sink.old sink.new)
        (λ (xs : List Rec). RoseBy (units (tree_of checked.now.net) + length xs)
        (S.worked spawner.old) (S.worked spawner.new)) ending) }
    ensures tasks { IfOk result (λ ending. Told (job N.does (tree_of checked.now.net) checked.now.version limit keep)
        (streams I.left I.ended I.faults O.taken source.old source.new sink.old sink.new)
        (λ (xs : List Rec). HasDoneTasks N.does
        (job N.does (tree_of checked.now.net) checked.now.version limit keep) xs) ending) }
    ensures rings { OnOk result (RanOverRings N.does limit keep (tree_of checked.now.net) cap) }
    ensures starts { OnOk result (RoseBy (units (tree_of checked.now.net))
        (S.starts spawner.old) (S.starts spawner.new)) }
    ensures refusals { S.refused spawner.new ≡ refused_count (S.refused spawner.old) result }
    ensures input_faults { CountsNetInput (I.faults source.old) (I.faults source.new) result }
    ensures output_faults { O.faults sink.new ≡ net_output_count (O.faults sink.old) result }
    ensures unread { result ≡ Err NetFault.Refused → source.new ≡ source.old }
    ensures unwritten { result ≡ Err NetFault.Refused → sink.new ≡ sink.old }
{
    plans_keep_laws(checked);
    let Ok(prepared) = prepare(rt, alloc, checked, cap, delivery, limit, keep) else {
        return Err(NetFault::Run(RunFault::NoMemory));
    };
    match start(rt, alloc, prepared, spawner) {
        Ok((caller, crew, waits)) => {
            let line = Line {
                caller,
                crew,
                rt: waits,
            };
            match run_line(alloc, checked.version(), line, source, sink, spawner) {
                Ok(ending) => Ok(ending),
                Err(fault) => Err(NetFault::Run(fault)),
            }
        }
        Err(denial) => Err(denial.into()),
    }
}
