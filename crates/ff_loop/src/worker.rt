// A worker of a wrap: a node that answers tasks.
ghost use Rattle.std.specs.Prelude.{◌≡◌, [], ◌∷◌};
ghost use Rattle.ff_node.specs.declared.class.Class.TheVariants.{Plain};
ghost use Rattle.ff_unit.specs.Stage.{opened_stage};
ghost use Rattle.ff_unit.specs.Units.{Ran};
ghost use Rattle.ff_loop.specs.WorkerUnit.{worker_does};

use ff_node::Node;
use ff_port::{End, Ports, Step};
use ff_rec::Record;
use ff_unit::{NodeRunner, Unit};
use std::alloc::Global;
use std::marker::Model;

/// A unit with one in and one out that runs a Plain node: for each task it puts what its node sends, and a Mark.
#[derive(Drop)]
pub struct WrapWorker<N> {
    runner: NodeRunner<N>,
}

impl<N> Model for WrapWorker<N> {
    ghost use Rattle.ff_unit.specs.Stage.{StageState};

    ghost Value = { StageState N };

    ghost view = { λ s. s.runner };
}

impl<N: Node> WrapWorker<N> {
    /// A worker of a node, which is put into its opening state. Rejects are kept where `keep` says so.
    pub fn new(alloc: Global, node: N, keep: bool) -> WrapWorker<N>
        requires { N.does.class node ≡ Plain }
        ensures opened { result ≡ opened_stage N.does node keep }
        ensures ran { Ran (worker_does N.does) result ([] ∷ []) ([] ∷ []) }
    {
        WrapWorker {
            runner: NodeRunner::new(alloc, node, keep),
        }
    }
}

impl<N: Node> Unit for WrapWorker<N> {
    ghost use Rattle.ff_loop.specs.WorkerLaws.{IsUnit-worker};
    ghost use Rattle.ff_loop.specs.WorkerUnit.{worker_does};

    ghost does = { worker_does N.does };

    fn step_once<P: Ports<Record>>(&mut self, ports: &mut P) -> Step {
        self.runner.step(true, ports)
    }

    fn end_aborted(&mut self) {
        self.runner.end_aborted();
    }

    fn take_kept(&mut self) -> Option<Record> {
        self.runner.take_kept()
    }

    fn end(&self) -> Option<End> {
        self.runner.end()
    }

    fn rejected(&self) -> u64 {
        self.runner.rejected()
    }

    ghost sound = { IsUnit-worker N.does N.keeps_kind N.class_law };
}
