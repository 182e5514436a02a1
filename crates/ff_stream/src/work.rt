// How the records of a stream are worked on.
ghost use Rattle.std.specs.Prelude.{◌≡◌};

use crate::{Intake, Report, RunFault};
use ff_io::Sink;
use ff_node::Node;
use std::alloc::Global;

/// A way to do the work of a run: it takes the records of a stream, and writes what is sent for them then or at the end.
/// Whoever runs it ends it by `finish` or by `give_up`. Work that has to be ended with the help of something else, as that
/// of threads that have to be joined, is taken in by `take_stream` and ended by whoever has that.
pub trait Work<N: Node>: Intake<N> {
    ghost use Rattle.std.specs.Prelude.{ℕ, List, ◌≡◌};
    ghost use Rattle.ff_rec.specs.Lines.{Rec};
    ghost use Rattle.ff_stream.specs.Endings.{output_count};
    ghost use Rattle.ff_stream.specs.Jobs.{Job};
    ghost use Rattle.ff_stream.specs.Works.{Finishes, IsOpen};
    ghost use Rattle.ff_stream.specs.declared.fault.Halt.{Halt};
    ghost use Rattle.ff_stream.specs.declared.fault.Halt.TheVariants.{NoMemory};

    /// Does what is left behind the last record, and writes the rest.
    fn finish<O: Sink>(self, alloc: Global, sink: &mut O) -> Result<Report, RunFault>
        ensures ends { Finishes Self.stands self (O.taken sink.old) (O.taken sink.new) result }
        ensures counts { O.faults sink.new ≡ output_count (O.faults sink.old) result };

    /// Ends the run early: nothing more is written. What was written begins an answer whatever records follow, both
    /// where the work still stood and where it broke off.
    fn give_up(self)
        ensures stood { (j : Job N) (xs : List Rec) (front : List ℕ) → Self.stands j self xs front
            → IsOpen j NoMemory xs front }
        ensures broke { (j : Job N) (halt : Halt) (xs : List Rec) (front : List ℕ)
            → Self.halted j self halt xs front → IsOpen j halt xs front };
}
