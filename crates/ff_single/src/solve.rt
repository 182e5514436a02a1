// A way to work out what a network sends for a whole input.
ghost use Rattle.std.specs.Prelude.{IfOk};

use ff_mean::Outcome;
use ff_node::Node;
use ff_rec::{NoMemory, Records};
use std::alloc::Global;

/// Works out what a network sends for the records of a whole input, and what it rejects.
pub trait Solve<N: Node>: Drop {
    ghost use Rattle.std.specs.Prelude.{IfOk};
    ghost use Rattle.ff_stream.specs.Jobs.{Job};
    ghost use Rattle.ff_single.specs.Wholes.{Solved};

    /// The network with its limits, and whether the rejected records are kept.
    ghost runs: { Self → Job N };

    /// Works out what the network sends for the whole input, and what it rejects.
    fn solve(self, alloc: Global, input: Records) -> Result<Outcome, NoMemory>
        ensures { IfOk result (λ outcome. Solved (Self.runs self) input outcome) };
}
