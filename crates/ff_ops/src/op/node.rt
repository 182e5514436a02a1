// An operation as a node.
use super::Op;
use super::arguments::copies;
use ff_node::{Class, Next, Node, Sends};
use ff_rec::{NoMemory, Record};

impl Node for Op {
    ghost use Rattle.ff_ops.specs.Operation.{op_node};
    ghost use Rattle.ff_ops.specs.OperationLaws.{op_keeps_kind, op_class_law};

    ghost does = { op_node };

    ghost keeps_kind = { op_keeps_kind };

    ghost class_law = { op_class_law };

    fn class(&self) -> Class {
        self.family.class()
    }

    fn copy(&self) -> Result<Op, NoMemory> {
        Ok(Op {
            row: self.row,
            args: copies(*self.args.allocator(), &self.args)?,
            family: Node::copy(&self.family)?,
        })
    }

    fn svc_init(&mut self) {
        self.family.svc_init();
    }

    #[inline(always)]
    fn svc(&mut self, r: Record, out: &mut Sends) -> Result<Next, NoMemory> {
        self.family.svc(r, out)
    }

    fn eos_notify(&mut self, out: &mut Sends) -> Result<(), NoMemory> {
        self.family.eos_notify(out)
    }

    fn svc_end(&mut self) {
        self.family.svc_end();
    }
}
