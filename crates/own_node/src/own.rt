// One type for all nodes of the network: those of one's own and the stock operations.
use crate::narrow::Narrow;
use crate::widest::Widest;
use ff_node::{Class, Next, Node, Sends};
use ff_ops::Op;
use ff_rec::{NoMemory, Record};

/// A node of the network.
#[derive(Debug, Drop)]
pub enum Own {
    Limit(Narrow),
    Count(Widest),
    Stock(Op),
}

impl Node for Own {
    ghost use Rattle.own_node.specs.Own.{own_node};
    ghost use Rattle.own_node.specs.OwnLaws.{own_keeps_kind, own_class_law};

    ghost does = { own_node };

    ghost keeps_kind = { own_keeps_kind };

    ghost class_law = { own_class_law };

    fn class(&self) -> Class {
        match self {
            Own::Limit(node) => node.class(),
            Own::Count(node) => node.class(),
            Own::Stock(node) => node.class(),
        }
    }

    fn copy(&self) -> Result<Own, NoMemory> {
        Ok(match self {
            Own::Limit(node) => Own::Limit(Node::copy(node)?),
            Own::Count(node) => Own::Count(Node::copy(node)?),
            Own::Stock(node) => Own::Stock(Node::copy(node)?),
        })
    }

    fn svc_init(&mut self) {
        match self {
            Own::Limit(node) => node.svc_init(),
            Own::Count(node) => node.svc_init(),
            Own::Stock(node) => node.svc_init(),
        }
    }

    fn svc(&mut self, r: Record, out: &mut Sends) -> Result<Next, NoMemory> {
        match self {
            Own::Limit(node) => node.svc(r, out),
            Own::Count(node) => node.svc(r, out),
            Own::Stock(node) => node.svc(r, out),
        }
    }

    fn eos_notify(&mut self, out: &mut Sends) -> Result<(), NoMemory> {
        match self {
            Own::Limit(node) => node.eos_notify(out),
            Own::Count(node) => node.eos_notify(out),
            Own::Stock(node) => node.eos_notify(out),
        }
    }

    fn svc_end(&mut self) {
        match self {
            Own::Limit(node) => node.svc_end(),
            Own::Count(node) => node.svc_end(),
            Own::Stock(node) => node.svc_end(),
        }
    }
}
