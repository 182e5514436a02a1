// A Plain node: each record goes on or is rejected, whatever came before.
use ff_node::{Class, Next, Node, Sends};
use ff_rec::{NoMemory, Record};

/// A node that sends each record of at most so many fields, and rejects the others.
#[derive(Clone, Copy, Debug, PartialEq, Eq)]
pub struct Narrow {
    pub most: usize,
}

impl Node for Narrow {
    ghost use Rattle.own_node.specs.Narrow.{narrow_node};
    ghost use Rattle.own_node.specs.NarrowLaws.{narrow_keeps_kind, narrow_class_law};

    ghost does = { narrow_node };

    ghost keeps_kind = { narrow_keeps_kind };

    ghost class_law = { narrow_class_law };

    fn class(&self) -> Class {
        Class::Plain
    }

    fn copy(&self) -> Result<Narrow, NoMemory> {
        Ok(*self)
    }

    fn svc_init(&mut self) {}

    fn svc(&mut self, r: Record, out: &mut Sends) -> Result<Next, NoMemory> {
        if r.len() > self.most {
            out.reject(r)?;
        } else {
            out.send(r)?;
        }
        Ok(Next::GoOn)
    }

    fn eos_notify(&mut self, _out: &mut Sends) -> Result<(), NoMemory> {
        Ok(())
    }

    fn svc_end(&mut self) {}
}
