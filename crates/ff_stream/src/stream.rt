// A node over a source, to a sink.
ghost use Rattle.std.specs.Prelude.{◌≡◌};
ghost use Rattle.ff_stream.specs.Endings.{Ran, CountsInput, output_count};
ghost use Rattle.ff_stream.specs.Jobs.{Job};
ghost use Rattle.ff_stream.specs.Nodes.{IsNodeOf};
ghost use Rattle.ff_stream.specs.Streams.{streams};

use crate::flow::{Flow, open};
use crate::{Ending, RunFault, run_work};
use ff_io::{Sink, Source};
use ff_net::Version;
use ff_node::Node;
use std::alloc::Global;

/// Runs a node that stands for a network of nodes `N`, from its opening state, over the records of a source, and writes
/// the text of what it sends to a sink, as the records come.
pub fn run_stream<N: Node, M: Node, I: Source, O: Sink>(
    alloc: Global,
    node: M,
    version: Version,
    keep: bool,
    source: &mut I,
    sink: &mut O,
) -> Result<Ending, RunFault>
    ensures run { (j : Job N) → j.version ≡ version → j.keep ≡ keep
        → IsNodeOf j.does j.net M.does node
        → Ran j (streams I.left I.ended I.faults O.taken
        source.old source.new sink.old sink.new) result }
    ensures input_faults { CountsInput (I.faults source.old) (I.faults source.new) result }
    ensures output_faults { O.faults sink.new ≡ output_count (O.faults sink.old) result }
{
    let flow = open(alloc, node, keep);
    run_work::<N, Flow<M>, I, O>(alloc, version, flow, source, sink)
}
