// Operations that send at the end alone, a record for each content of a field: their arguments and their states.
ghost use Rattle.std.specs.Prelude.{◌≡◌};

use crate::{Counts, Totals};
use ff_node::{Class, Next, Node, Sends};
use ff_rec::{NoMemory, Record};

/// A fold by the contents of a field.
#[derive(Debug, Drop)]
pub enum KeyedOp {
    /// How many records there were of each content.
    TallyBy(u32, Counts),
    /// The sums of the numbers in the second field, by the contents of the first.
    TotalBy(u32, usize, Totals),
}

impl KeyedOp {
    ghost use Rattle.std.specs.Prelude.{◌≡◌};
    ghost use Rattle.std.specs.Prelude.{IfOk, OnOk};
    ghost use Rattle.ff_ops.specs.KeyedOps.{keyed_opening, keyed_next};
    ghost use Rattle.ff_ops.specs.KeyedTakes.{TakesOrRejects};

    // Takes a record into the state, unless it is to be rejected.
    fn take(&mut self, r: &Record) -> Result<bool, NoMemory>
        ensures kind { keyed_opening self.new ≡ keyed_opening self.old }
        ensures state { OnOk result (self.new ≡ keyed_next self.old r.now) }
        ensures taken { IfOk result (TakesOrRejects self.old r.now) }
    {
        match self {
            KeyedOp::TallyBy(field, counts) => {
                let Some(key) = r.field(*field as usize) else {
                    return Ok(false);
                };
                counts.count(key)?;
            }
            KeyedOp::TotalBy(field, number, totals) => {
                let Some(key) = r.field(*field as usize) else {
                    return Ok(false);
                };
                let Some(x) = r.number(*number) else {
                    return Ok(false);
                };
                totals.add(key, x)?;
            }
        }
        Ok(true)
    }

    // The state before the first record.
    fn opening(&self) -> KeyedOp
        ensures { result ≡ keyed_opening self.now }
    {
        match self {
            KeyedOp::TallyBy(field, counts) => KeyedOp::TallyBy(*field, counts.opening()),
            KeyedOp::TotalBy(field, number, totals) => {
                KeyedOp::TotalBy(*field, *number, totals.opening())
            }
        }
    }
}

impl Node for KeyedOp {
    ghost use Rattle.ff_ops.specs.KeyedOps.{keyed_node};
    ghost use Rattle.ff_ops.specs.KeyedOpLaws.{keyed_keeps_kind, keyed_class_law};

    ghost does = { keyed_node };

    ghost keeps_kind = { keyed_keeps_kind };

    ghost class_law = { keyed_class_law };

    fn class(&self) -> Class {
        match self {
            KeyedOp::TallyBy(field, _) | KeyedOp::TotalBy(field, _, _) => Class::Keyed(*field),
        }
    }

    fn copy(&self) -> Result<KeyedOp, NoMemory> {
        Ok(self.opening())
    }

    fn svc_init(&mut self) {
        *self = self.opening();
    }

    fn svc(&mut self, r: Record, out: &mut Sends) -> Result<Next, NoMemory> {
        if self.take(&r)? {
            drop(r);
        } else {
            out.reject(r)?;
        }
        Ok(Next::GoOn)
    }

    fn eos_notify(&mut self, out: &mut Sends) -> Result<(), NoMemory> {
        match self {
            KeyedOp::TallyBy(_, counts) => counts.send(out),
            KeyedOp::TotalBy(_, _, totals) => totals.send(out),
        }
    }

    fn svc_end(&mut self) {
        *self = self.opening();
    }
}
