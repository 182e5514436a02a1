// A stage: a node between its in and its out.
ghost use Rattle.std.specs.Prelude.{◌≡◌, [], ◌∷◌};
ghost use Rattle.ff_unit.specs.Stage.{opened_stage};
ghost use Rattle.ff_unit.specs.StageUnit.{stage_does};
ghost use Rattle.ff_unit.specs.Units.{Ran};

use crate::{NodeRunner, Unit};
use ff_node::Node;
use ff_port::{End, Ports, Step};
use ff_rec::Record;
use std::alloc::Global;
use std::marker::Model;

/// A unit with one in and one out that runs a node.
#[derive(Drop)]
pub struct Stage<N> {
    runner: NodeRunner<N>,
}

impl<N> Model for Stage<N> {
    ghost use Rattle.ff_unit.specs.Stage.{StageState};

    ghost Value = { StageState N };

    ghost view = { λ s. s.runner };
}

impl<N: Node> Stage<N> {
    /// A stage of a node, which is put into its opening state. Rejects are kept where `keep` says so.
    pub fn new(alloc: Global, node: N, keep: bool) -> Stage<N>
        ensures opened { result ≡ opened_stage N.does node keep }
        ensures ran { Ran (stage_does N.does) result ([] ∷ []) ([] ∷ []) }
    {
        Stage {
            runner: NodeRunner::new(alloc, node, keep),
        }
    }
}

impl<N: Node> Unit for Stage<N> {
    ghost use Rattle.ff_unit.specs.StageLaws.{IsUnit-stage};
    ghost use Rattle.ff_unit.specs.StageUnit.{stage_does};

    ghost does = { stage_does N.does };

    #[inline(always)]
    fn step_once<P: Ports<Record>>(&mut self, ports: &mut P) -> Step {
        self.runner.step(false, ports)
    }

    #[inline(always)]
    fn step_through<P: Ports<Record>>(&mut self, ports: &mut P) -> Step {
        self.runner.step_through(ports)
    }

    fn end_aborted(&mut self) {
        self.runner.end_aborted();
    }

    fn take_kept(&mut self) -> Option<Record> {
        self.runner.take_kept()
    }

    fn end(&self) -> Option<End> {
        self.runner.end()
    }

    fn rejected(&self) -> u64 {
        self.runner.rejected()
    }

    ghost sound = { IsUnit-stage N.does N.keeps_kind N.class_law };
}
