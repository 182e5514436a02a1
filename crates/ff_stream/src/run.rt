// A run over a source, to a sink.
ghost use Rattle.std.specs.Prelude.{◌≡◌, []};
ghost use Rattle.ff_stream.specs.Endings.{Ran, CountsInput, output_count};
ghost use Rattle.ff_stream.specs.Jobs.{Job};
ghost use Rattle.ff_stream.specs.Streams.{streams};

use crate::{Ending, RunFault, Work, take_stream};
use ff_io::{Sink, Source};
use ff_net::Version;
use ff_node::Node;
use std::alloc::Global;

/// Reads the records of a source within the limits of a version and has the work done with them: the table of a run holds
/// for every job that it does and of which it did nothing yet.
pub fn run_work<N: Node, W: Work<N>, I: Source, O: Sink>(
    alloc: Global,
    version: Version,
    mut work: W,
    source: &mut I,
    sink: &mut O,
) -> Result<Ending, RunFault>
    ensures run { (j : Job N) → j.version ≡ version → W.stands j work [] []
        → Ran j (streams I.left I.ended I.faults O.taken
        source.old source.new sink.old sink.new) result }
    ensures input_faults { CountsInput (I.faults source.old) (I.faults source.new) result }
    ensures output_faults { O.faults sink.new ≡ output_count (O.faults sink.old) result }
{
    let stop = match take_stream(alloc, version, &mut work, source, sink) {
        Ok(stop) => stop,
        Err(halt) => {
            work.give_up();
            return Err(halt.into());
        }
    };
    let report = work.finish(alloc, sink)?;
    Ok(Ending { stop, report })
}
