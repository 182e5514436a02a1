// A fold as a node.
ghost use Rattle.std.specs.Prelude.{◌≡◌};
ghost use Rattle.ff_node.specs.Behaviour.{Behaviour};

use crate::FoldOp;
use ff_node::{Class, Next, Node, Sends};
use ff_rec::{NoMemory, Record, print_number};
use std::alloc::Global;
use std::marker::Model;

/// A fold, and where the memory of the record at its end comes from.
#[derive(Debug, Drop)]
pub struct FoldNode {
    op: FoldOp,
    alloc: Global,
}

impl Model for FoldNode {
    ghost use Rattle.ff_ops.specs.declared.fold_op.FoldOp.{FoldOp};

    ghost Value = { FoldOp };

    ghost view = { λ f. f.op };
}

impl FoldNode {
    /// The node of a fold.
    pub fn new(alloc: Global, op: FoldOp) -> FoldNode
        ensures { result ≡ op }
    {
        FoldNode { op, alloc }
    }
}

impl Node for FoldNode {
    ghost use Rattle.ff_ops.specs.FoldOps.{fold_node};
    ghost use Rattle.ff_ops.specs.FoldOpLaws.{fold_keeps_kind, fold_class_law};

    ghost does = { fold_node };

    ghost keeps_kind = { fold_keeps_kind };

    ghost class_law = { fold_class_law };

    fn class(&self) -> Class {
        Class::Fold
    }

    fn copy(&self) -> Result<FoldNode, NoMemory> {
        Ok(FoldNode {
            op: self.op.opening(),
            alloc: self.alloc,
        })
    }

    fn svc_init(&mut self) {
        self.op = self.op.opening();
    }

    fn svc(&mut self, r: Record, out: &mut Sends) -> Result<Next, NoMemory> {
        if self.op.take(&r) {
            drop(r);
        } else {
            out.reject(r)?;
        }
        Ok(Next::GoOn)
    }

    fn eos_notify(&mut self, out: &mut Sends) -> Result<(), NoMemory> {
        if let Some(n) = self.op.last() {
            let field = print_number(self.alloc, n)?;
            out.send(Record::one(self.alloc, &field)?)?;
        }
        Ok(())
    }

    fn svc_end(&mut self) {
        self.op = self.op.opening();
    }
}
