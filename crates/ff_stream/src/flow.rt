// A node that takes records as they are read.
mod steps;

use crate::{Halt, Intake, Report, RunFault, Text, Work};
use ff_io::Sink;
use ff_node::{Node, Sends};
use ff_rec::Record;
use std::alloc::Global;
pub use steps::open;
use steps::{end, hand, report_of};

/// A node that works as the records come, whether it ended by itself, what it rejected, and the text of what it sent that
/// isn't written yet.
#[derive(Drop)]
pub struct Flow<M> {
    node: M,
    ended: bool,
    sends: Sends,
    text: Text,
}

impl<N: Node, M: Node> Intake<N> for Flow<M> {
    ghost use Rattle.ff_stream.specs.Flows.{Flows};
    ghost use Rattle.ff_stream.specs.Works.{IsOpen};

    ghost stands = { λ j w xs front. Flows M.does j w xs front };

    ghost halted = { λ j _ halt xs front. IsOpen j halt xs front };

    fn take<O: Sink>(&mut self, r: Record, sink: &mut O) -> Result<(), Halt> {
        hand(self, r)?;
        Ok(self.text.write_full(sink)?)
    }

    fn pause<O: Sink>(&mut self, sink: &mut O) -> Result<(), Halt> {
        Ok(self.text.write(sink)?)
    }

    fn drops(&self) -> bool {
        self.ended
    }
}

impl<N: Node, M: Node> Work<N> for Flow<M> {
    fn finish<O: Sink>(mut self, _alloc: Global, sink: &mut O) -> Result<Report, RunFault> {
        end(&mut self)?;
        self.text.write(sink)?;
        Ok(report_of(&mut self.sends))
    }

    fn give_up(self) {}
}
