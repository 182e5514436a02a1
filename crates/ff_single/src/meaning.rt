// Networks by their meaning.
ghost use Rattle.std.specs.Prelude.{◌≡◌};
ghost use Rattle.ff_net.specs.Tree.{tree_of};
ghost use Rattle.ff_stream.specs.Endings.{Ran, CountsInput, output_count};
ghost use Rattle.ff_stream.specs.Jobs.{job};
ghost use Rattle.ff_stream.specs.Streams.{streams};

use crate::Solve;
use crate::whole::run_solved;
use ff_io::{Sink, Source};
use ff_mean::{Outcome, run_one};
use ff_net::Checked;
use ff_node::Node;
use ff_rec::{NoMemory, Records};
use ff_stream::{Ending, RunFault};
use std::alloc::Global;

/// A network, of which each node is run on the whole list that it gets.
#[derive(Drop)]
pub(crate) struct Meaning<'a, N: Node> {
    checked: &'a Checked<N>,
    limit: u64,
    keep: bool,
}

impl<'a, N: Node> Solve<N> for Meaning<'a, N> {
    ghost use Rattle.ff_net.specs.Tree.{tree_of};
    ghost use Rattle.ff_stream.specs.Jobs.{job};

    ghost runs = { λ w. job N.does (tree_of w.checked.now.net) w.checked.now.version w.limit w.keep };

    fn solve(self, alloc: Global, input: Records) -> Result<Outcome, NoMemory> {
        run_one(alloc, self.checked, self.limit, self.keep, input)
    }
}

/// Reads the whole input, computes what the network means for its records, and writes that.
pub(crate) fn run_whole<N: Node, I: Source, O: Sink>(
    alloc: Global,
    checked: &Checked<N>,
    limit: u64,
    keep: bool,
    source: &mut I,
    sink: &mut O,
) -> Result<Ending, RunFault>
    ensures run { Ran (job N.does (tree_of checked.now.net) checked.now.version limit keep)
        (streams I.left I.ended I.faults O.taken source.old source.new sink.old sink.new) result }
    ensures input_faults { CountsInput (I.faults source.old) (I.faults source.new) result }
    ensures output_faults { O.faults sink.new ≡ output_count (O.faults sink.old) result }
{
    let meaning = Meaning {
        checked,
        limit,
        keep,
    };
    run_solved(alloc, checked.version(), meaning, source, sink)
}
