// Networks of which nothing is sent before the whole input is read.
ghost use Rattle.std.specs.Prelude.{◌≡◌};
ghost use Rattle.ff_stream.specs.Endings.{Ran, CountsInput, output_count};
ghost use Rattle.ff_stream.specs.Streams.{streams};

use crate::Solve;
use ff_io::{Sink, Source};
use ff_mean::Outcome;
use ff_net::Version;
use ff_node::Node;
use ff_rec::{Record, Records};
use ff_stream::{Ending, Halt, Intake, Report, RunFault, Work, run_work, write_records};
use std::alloc::Global;

/// The records that a network was given: what it sends for them is worked out and written at the end.
#[derive(Drop)]
struct Whole<W> {
    way: W,
    records: Records,
}

impl<N: Node, W: Solve<N>> Intake<N> for Whole<W> {
    ghost use Rattle.ff_single.specs.Wholes.{Gathers};
    ghost use Rattle.ff_stream.specs.Works.{IsOpen};

    ghost stands = { λ j w xs front. Gathers (W.runs w.way) w.records j xs front };

    ghost halted = { λ j _ halt xs front. IsOpen j halt xs front };

    fn take<O: Sink>(&mut self, r: Record, _sink: &mut O) -> Result<(), Halt> {
        Ok(self.records.push(r)?)
    }

    fn pause<O: Sink>(&mut self, _sink: &mut O) -> Result<(), Halt> {
        Ok(())
    }

    fn drops(&self) -> bool {
        false
    }
}

impl<N: Node, W: Solve<N>> Work<N> for Whole<W> {
    fn finish<O: Sink>(self, alloc: Global, sink: &mut O) -> Result<Report, RunFault> {
        match self.way.solve(alloc, self.records)? {
            Outcome::Over => Err(RunFault::Tasks),
            Outcome::Done {
                sent,
                rejected,
                kept,
            } => {
                write_records(alloc, sent, sink)?;
                Ok(Report { rejected, kept })
            }
        }
    }

    fn give_up(self) {}
}

/// Reads the whole input, has worked out what is sent for its records, and writes that.
pub fn run_solved<N: Node, W: Solve<N>, I: Source, O: Sink>(
    alloc: Global,
    version: Version,
    way: W,
    source: &mut I,
    sink: &mut O,
) -> Result<Ending, RunFault>
    requires { version ≡ (W.runs way).version }
    ensures run { Ran (W.runs way)
        (streams I.left I.ended I.faults O.taken source.old source.new sink.old sink.new) result }
    ensures input_faults { CountsInput (I.faults source.old) (I.faults source.new) result }
    ensures output_faults { O.faults sink.new ≡ output_count (O.faults sink.old) result }
{
    let whole = Whole {
        way,
        records: Records::new(alloc),
    };
    run_work(alloc, version, whole, source, sink)
}
