// A node with what it holds to be put, between one in and one out.
ghost use Rattle.std.specs.Prelude.{◌≡◌};
ghost use Rattle.ff_unit.specs.Stage.{opened_stage, opening_stage};
ghost use Rattle.ff_unit.specs.StageUnit.{stage_does, aborted_stage};
ghost use Rattle.ff_unit.specs.Units.{HandsReject, end_of};

mod steps;
mod takes;
mod working;

use ff_node::Node;
use ff_port::End;
use ff_rec::{Msg, Record};
use std::alloc::Global;
use std::marker::Model;
use working::Working;

/// What runs a node: it takes messages at an in, and puts what the node sends at an out. A stage is one, and so is a unit that puts
/// a Mark behind the sends of each record.
pub struct NodeRunner<N> {
    // What the out had no room for.
    refused: Option<Msg<Record>>,
    working: Working<N>,
}

// By hand, so that letting one go is one call for the units round it.
impl<N: Drop> Drop for NodeRunner<N> {
    fn drop(self) {
        let NodeRunner { refused, working } = self;
        drop(refused);
        drop(working);
    }
}

impl<N> Model for NodeRunner<N> {
    ghost use Rattle.ff_unit.specs.Stage.{StageState};
    ghost use Rattle.ff_unit.specs.StageParts.{led_by};

    ghost Value = { StageState N };

    ghost view = { λ s. led_by s.refused s.working };
}

impl<N: Node> NodeRunner<N> {
    /// It made no step, and its node is put into its opening state. Rejects are kept where `keep` says so.
    pub fn new(alloc: Global, node: N, keep: bool) -> NodeRunner<N>
        ensures { result ≡ opened_stage N.does node keep }
    {
        NodeRunner {
            refused: None,
            working: Working::new(alloc, node, keep),
        }
    }

    /// What being told to abort makes of one that made no step and whose out was given Abort.
    pub fn end_aborted(&mut self)
        requires { self.old ≡ opening_stage N.does self.old }
        ensures { self.new ≡ aborted_stage self.old }
    {
        self.working.end_aborted();
    }

    /// The first reject that it holds, which is taken out.
    pub fn take_kept(&mut self) -> Option<Record>
        ensures { HandsReject (stage_does N.does) self.old result self.new }
    {
        self.working.take_kept()
    }

    /// How it ended, once it has.
    pub fn end(&self) -> Option<End>
        ensures { result ≡ end_of (stage_does N.does) self.now }
    {
        self.working.end()
    }

    /// How many records the node rejected, up to 2^64 - 1.
    pub fn rejected(&self) -> u64
        ensures { result ≡ self.now.rejects }
    {
        self.working.rejected()
    }
}
