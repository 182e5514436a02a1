// Several nodes run as one.
ghost use Rattle.std.specs.Prelude.{◌≡◌, ◌≤◌, ◌<◌, length};
ghost use Rattle.ff_node.specs.Comb.{running};

use crate::nodes::{close, copies, joint_class, open};
use crate::parts::{finish, pass};
use crate::{Class, Next, Node, Sends};
use ff_rec::{NoMemory, Record};
use std::marker::Model;

/// Several nodes run as one: the first takes the records, and each of the others what the one before it sends. It ends
/// where its first part does; a later part that has ended drops what comes.
#[derive(Drop)]
pub struct Comb<N> {
    nodes: Vec<N>,
    // Which of them have ended by themselves.
    ended: [bool; 64],
}

impl<N> Model for Comb<N> {
    ghost use Rattle.ff_node.specs.Comb.{Part, parts};
    ghost use Rattle.std.specs.Prelude.{List, ◌<◌, ◌≤◌, length};

    ghost Value = { List (Part N) };

    ghost view = { λ c. parts c.nodes.items c.ended };

    ghost invariant = { λ c. (0 < length c.nodes.items) × (length c.nodes.items ≤ 64) };
}

impl<N: Node> Comb<N> {
    /// The parts in their order, none of which has ended.
    pub fn new(parts: Vec<N>) -> Comb<N>
        requires some { 0 < length parts.items }
        requires few { length parts.items ≤ 64 }
        ensures { result ≡ running parts.items }
    {
        Comb {
            nodes: parts,
            ended: [false; 64],
        }
    }
}

impl<N: Node> Node for Comb<N> {
    ghost use Rattle.ff_node.specs.Comb.{comb_node};
    ghost use Rattle.ff_node.specs.CombKindLaws.{comb_keeps_kind};
    ghost use Rattle.ff_node.specs.CombClassLaws.{comb_class_law};

    ghost does = { comb_node N.does };

    ghost keeps_kind = { comb_keeps_kind N.does N.keeps_kind };

    ghost class_law = { comb_class_law N.does N.class_law };

    fn class(&self) -> Class {
        joint_class(&self.nodes)
    }

    fn copy(&self) -> Result<Comb<N>, NoMemory> {
        Ok(Comb::new(copies(&self.nodes)?))
    }

    fn svc_init(&mut self) {
        open(&mut self.nodes);
        self.ended = [false; 64];
    }

    #[inline(always)]
    fn svc(&mut self, r: Record, out: &mut Sends) -> Result<Next, NoMemory> {
        pass(&mut self.nodes, &mut self.ended, r, out)?;
        Ok(if self.ended[0] { Next::Eos } else { Next::GoOn })
    }

    fn eos_notify(&mut self, out: &mut Sends) -> Result<(), NoMemory> {
        finish(&mut self.nodes, &mut self.ended, out)
    }

    fn svc_end(&mut self) {
        close(&mut self.nodes);
        self.ended = [false; 64];
    }
}
