// The network by threads, over any source and any sink.
ghost use Rattle.std.specs.Prelude.{◌≡◌, ◌+◌, List, length, false, Err, IfOk, OnOk};
ghost use Rattle.ff_engine.specs.Runs.{NetRan, CountsNetInput, refused_count, net_output_count};
ghost use Rattle.ff_net.specs.Counts.{units};
ghost use Rattle.ff_net.specs.Tree.{tree_of};
ghost use Rattle.ff_rec.specs.Lines.{Rec};
ghost use Rattle.ff_spawn.specs.Counts.{RoseBy};
ghost use Rattle.ff_stream.specs.Endings.{Told};
ghost use Rattle.ff_stream.specs.Jobs.{job};
ghost use Rattle.ff_stream.specs.Streams.{streams};
ghost use Rattle.own_node.specs.Network.{own_net};
ghost use Rattle.own_node.specs.Own.{own_node};

use crate::own::Own;
use ff_engine::{Delivery, NetFault, NetJob, NetUnit, run_net};
use ff_io::{Sink, Source};
use ff_net::{Checked, Version};
use ff_spawn::Spawner;
use ff_stream::Ending;
use std::alloc::Global;
use std::sync::Wait;

/// Runs the network over the records of a source, each of its units in a thread, and writes what it sends to a sink.
pub fn widest_line<
    R: Wait + Clone + Drop + Send + 'static,
    I: Source,
    O: Sink,
    S: Spawner<NetJob<NetUnit<Own>, R>>,
>(
    rt: &R,
    alloc: Global,
    checked: &Checked<Own>,
    source: &mut I,
    sink: &mut O,
    spawner: &mut S,
) -> Result<Ending, NetFault>
    requires net { tree_of checked.now.net ≡ own_net }
    requires version { checked.now.version ≡ Version.Two }
    ensures run { NetRan (job own_node own_net Version.Two 0 false)
        (streams I.left I.ended I.faults O.taken source.old source.new sink.old sink.new) result }
    ensures work { IfOk result (λ ending. Told (job own_node own_net Version.Two 0 false)
        (streams I.left I.ended I.faults O.taken source.old source.new sink.old sink.new)
        (λ (xs : List Rec). RoseBy (units own_net + length xs)
        (S.worked spawner.old) (S.worked spawner.new)) ending) }
    ensures starts { OnOk result (RoseBy (units own_net)
        (S.starts spawner.old) (S.starts spawner.new)) }
    ensures refusals { S.refused spawner.new ≡ refused_count (S.refused spawner.old) result }
    ensures input_faults { CountsNetInput (I.faults source.old) (I.faults source.new) result }
    ensures output_faults { O.faults sink.new ≡ net_output_count (O.faults sink.old) result }
    ensures unread { result ≡ Err NetFault.Refused → source.new ≡ source.old }
    ensures unwritten { result ≡ Err NetFault.Refused → sink.new ≡ sink.old }
{
    // No wrap stands in it, and so it has no tasks.
    run_net(
        rt,
        alloc,
        checked,
        512,
        Delivery::Prompt,
        0,
        false,
        source,
        sink,
        spawner,
    )
}
