// A stream through threads that were started.
ghost use Rattle.std.specs.Prelude.{◌≡◌, ℕ, List, [], IfOk};
ghost use Rattle.ff_rec.specs.Lines.{Rec};
ghost use Rattle.ff_stream.specs.Endings.{Ran, Told, CountsInput, output_count};
ghost use Rattle.ff_stream.specs.Jobs.{Job};
ghost use Rattle.ff_stream.specs.Streams.{streams};
ghost use Rattle.ff_engine.specs.Networks.{HasDoneTasks, HasFed, JoinsOnly, WorkedThrough};
ghost use Rattle.ff_engine.specs.Seen.{caller_of};

use crate::NetJob;
use crate::line::Line;
use ff_io::{Sink, Source};
use ff_net::Version;
use ff_node::Node;
use ff_spawn::Spawner;
use ff_steps::NetUnit;
use ff_stream::{Ending, RunFault, take_stream};
use std::alloc::Global;
use std::sync::Wait;

/// Reads the records of a source, has the threads work on them, writes what they send, and joins them at every end.
pub(crate) fn run_line<
    N: Node + Send + 'static,
    R: Wait + Drop + Send + 'static,
    I: Source,
    O: Sink,
    S: Spawner<NetJob<NetUnit<N>, R>>,
>(
    alloc: Global,
    version: Version,
    line: Line<N, R>,
    source: &mut I,
    sink: &mut O,
    spawner: &mut S,
) -> Result<Ending, RunFault>
    requires { (j : Job N) × (j.version ≡ version)
        × HasFed N.does j (caller_of line.caller) line.crew [] [] }
    ensures run { (j : Job N) → j.version ≡ version
        → HasFed N.does j (caller_of line.caller) line.crew [] []
        → Ran j (streams I.left I.ended I.faults O.taken
        source.old source.new sink.old sink.new) result }
    ensures work { IfOk result (λ ending. (j : Job N) → j.version ≡ version
        → HasFed N.does j (caller_of line.caller) line.crew [] []
        → Told j (streams I.left I.ended I.faults O.taken source.old source.new sink.old sink.new)
        (λ xs. WorkedThrough j xs (S.worked spawner.old) (S.worked spawner.new)) ending) }
    ensures tasks { IfOk result (λ ending. (j : Job N) → j.version ≡ version
        → HasFed N.does j (caller_of line.caller) line.crew [] []
        → Told j (streams I.left I.ended I.faults O.taken source.old source.new sink.old sink.new)
        (λ xs. HasDoneTasks N.does j xs) ending) }
    ensures joins { JoinsOnly (S.refused spawner.old) (S.refused spawner.new)
        (S.starts spawner.old) (S.starts spawner.new) (S.worked spawner.old) (S.worked spawner.new) }
    ensures input_faults { CountsInput (I.faults source.old) (I.faults source.new) result }
    ensures output_faults { O.faults sink.new ≡ output_count (O.faults sink.old) result }
{
    let mut line = line;
    match take_stream(alloc, version, &mut line, source, sink) {
        Ok(stop) => match line.finish(alloc, spawner, sink) {
            Ok(report) => Ok(Ending { stop, report }),
            Err(fault) => Err(fault),
        },
        Err(halt) => {
            line.give_up(spawner);
            Err(halt.into())
        }
    }
}
