// A network over a source, to a sink.
ghost use Rattle.std.specs.Prelude.{◌≡◌};
ghost use Rattle.ff_net.specs.Tree.{tree_of};
ghost use Rattle.ff_stream.specs.Endings.{Ran, CountsInput, output_count};
ghost use Rattle.ff_stream.specs.Jobs.{job};
ghost use Rattle.ff_stream.specs.Streams.{streams};

use crate::meaning::run_whole;
use crate::pipeline::run_pipeline;
use ff_io::{Sink, Source};
use ff_net::Checked;
use ff_node::Node;
use ff_stream::{Ending, RunFault};
use std::alloc::Global;

/// Runs a network over the records of a source and writes the text of what it sends to a sink. A wrap may have at most
/// `limit` tasks. Where no wrap stands in the network, records are read in pieces and handed on as they come: memory then
/// grows with what folds hold and with the rejected records that are kept, and not with the input. Where one does, the whole
/// input is read first.
pub fn run_single<N: Node, I: Source, O: Sink>(
    alloc: Global,
    checked: &Checked<N>,
    limit: u64,
    keep: bool,
    source: &mut I,
    sink: &mut O,
) -> Result<Ending, RunFault>
    ensures run { Ran (job N.does (tree_of checked.now.net) checked.now.version limit keep)
        (streams I.left I.ended I.faults O.taken source.old source.new sink.old sink.new) result }
    ensures input_faults { CountsInput (I.faults source.old) (I.faults source.new) result }
    ensures output_faults { O.faults sink.new ≡ output_count (O.faults sink.old) result }
{
    if checked.has_wrap() {
        return run_whole(alloc, checked, limit, keep, source, sink);
    }
    let nodes = checked.net().nodes(alloc)?;
    run_pipeline(alloc, checked, nodes, limit, keep, source, sink)
}
