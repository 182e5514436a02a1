// Operations for which the order of the records matters: their arguments and their states.
ghost use Rattle.std.specs.Prelude.{◌≡◌, IfOk, OnOk};

mod rows;

use ff_node::{Class, Next, Node, Sends};
use ff_rec::{Field, NoMemory, Record};
use rows::{delta, number, run_sum, skip, take, uniq};

/// An operation with a state that the records before decide.
#[derive(Debug, Drop)]
pub enum OrderedOp {
    /// The state is a new first field, and grows by 1.
    Number(u64),
    /// The field becomes the sum so far.
    RunSum(usize, i64),
    /// The field becomes its number less the one before.
    Delta(usize, i64),
    /// The first so many records; how many are left.
    Take(u64, u64),
    /// All records but the first so many; how many are left.
    Skip(u64, u64),
    /// The records whose field differs from the one before; the one before.
    Uniq(usize, Option<Field>),
}

impl OrderedOp {
    ghost use Rattle.ff_ops.specs.OrderedOps.{ordered_opening};

    /// The state before the first record.
    pub fn opening(&self) -> OrderedOp
        ensures { result ≡ ordered_opening self.now }
    {
        match self {
            OrderedOp::Number(_) => OrderedOp::Number(1),
            OrderedOp::RunSum(field, _) => OrderedOp::RunSum(*field, 0),
            OrderedOp::Delta(field, _) => OrderedOp::Delta(*field, 0),
            OrderedOp::Take(most, _) => OrderedOp::Take(*most, *most),
            OrderedOp::Skip(most, _) => OrderedOp::Skip(*most, *most),
            OrderedOp::Uniq(field, _) => OrderedOp::Uniq(*field, None),
        }
    }
}

impl Node for OrderedOp {
    ghost use Rattle.ff_ops.specs.OrderedOps.{ordered_node};
    ghost use Rattle.ff_ops.specs.OrderedLaws.{ordered_keeps_kind, ordered_class_law};

    ghost does = { ordered_node };

    ghost keeps_kind = { ordered_keeps_kind };

    ghost class_law = { ordered_class_law };

    fn class(&self) -> Class {
        Class::Ordered
    }

    fn copy(&self) -> Result<OrderedOp, NoMemory> {
        Ok(self.opening())
    }

    fn svc_init(&mut self) {
        *self = self.opening();
    }

    fn svc(&mut self, r: Record, out: &mut Sends) -> Result<Next, NoMemory> {
        match *self {
            OrderedOp::Number(ref mut count) => number(count, r, out)?,
            OrderedOp::RunSum(field, ref mut sum) => run_sum(field, sum, r, out)?,
            OrderedOp::Delta(field, ref mut before) => delta(field, before, r, out)?,
            OrderedOp::Take(_, ref mut left) => return take(left, r, out),
            OrderedOp::Skip(_, ref mut left) => skip(left, r, out)?,
            OrderedOp::Uniq(field, ref mut before) => uniq(field, before, r, out)?,
        }
        Ok(Next::GoOn)
    }

    fn eos_notify(&mut self, _out: &mut Sends) -> Result<(), NoMemory> {
        Ok(())
    }

    fn svc_end(&mut self) {
        *self = self.opening();
    }
}
