// An operation: read, made, printed.
ghost use Rattle.std.specs.Prelude.{◌≡◌, ◌⊎◌, ◌++◌, Err, IfOk, OnOk};
ghost use Rattle.ff_ops.specs.Arguments.{AllFit};
ghost use Rattle.ff_ops.specs.Operation.{operation, read_op, op_text, IsReadAgain};
ghost use Rattle.ff_ops.specs.Table.{kinds_of};

mod arguments;
mod node;

use crate::{Arg, Family, Row};
use arguments::{copies, first_outside, first_unsuited, print_arguments};
use ff_rec::NoMemory;
use std::alloc::{AllocError, Global};
use std::marker::Model;

/// A row of the table with arguments that fit it, as a node.
#[derive(Debug)]
pub struct Op {
    row: Row,
    args: Vec<Arg>,
    // What the row does with these arguments, and how far it has come.
    family: Family,
}

// By hand, so that a crate that lets operations go proves one call, and not each part of each family.
impl Drop for Op {
    fn drop(self) {
        let Op {
            row: _,
            args,
            family,
        } = self;
        drop(args);
        drop(family);
    }
}

impl Model for Op {
    ghost use Rattle.ff_ops.specs.Operation.{OpState, IsReadAgain, op_state};

    ghost Value = { OpState };

    ghost view = { λ o. record { row = o.row; args = o.args.items; family = o.family } };

    ghost invariant = { λ o. IsReadAgain (op_state o.row o.args.items o.family) };
}

/// Why a name with arguments is no operation. Places of arguments are counted from 0.
#[derive(Clone, Copy, Debug, PartialEq, Eq)]
pub enum OpFault {
    /// No row has the name.
    UnknownOp,
    /// The row has another number of arguments.
    ArgCount,
    /// The first argument that isn't of its kind.
    ArgKind(usize),
    /// The first argument that is outside the range of its kind.
    ArgRange(usize),
    NoMemory,
}

impl From<NoMemory> for OpFault {
    ghost use Rattle.std.specs.Prelude.{◌≡◌};
    ghost use Rattle.ff_ops.specs.declared.op.OpFault.TheVariants.{NoMemory};

    ghost from_gives = { λ _ fault. fault ≡ NoMemory };

    fn from(_: NoMemory) -> OpFault {
        OpFault::NoMemory
    }
}

impl Op {
    /// The operation of a row with arguments that fit it, before its first record.
    pub fn of_row(alloc: Global, row: Row, args: Vec<Arg>) -> Result<Op, NoMemory>
        requires { AllFit args.items (kinds_of row) }
        ensures { IfOk result (λ op. op ≡ operation row args.items) }
    {
        let family = Family::new(alloc, row, &args)?;
        Ok(Op { row, args, family })
    }

    /// The operation with this name and these arguments, before its first record.
    pub fn read(alloc: Global, name: &[u8], args: &[Arg]) -> Result<Op, OpFault>
        ensures { (result ≡ Err OpFault.NoMemory) ⊎ (result ≡ read_op name.now args.now) }
    {
        let Some(row) = Row::named(name) else {
            return Err(OpFault::UnknownOp);
        };
        if args.len() != row.kinds().len() {
            return Err(OpFault::ArgCount);
        }
        if let Some(k) = first_unsuited(args, row.kinds()) {
            return Err(OpFault::ArgKind(k));
        }
        if let Some(k) = first_outside(args, row.kinds()) {
            return Err(OpFault::ArgRange(k));
        }
        Ok(Op::of_row(alloc, row, copies(alloc, args)?)?)
    }

    /// Its row of the table.
    pub fn row(&self) -> Row
        ensures row { result ≡ self.now.row }
    {
        self.row
    }

    /// Its arguments. Its name and these are read as this operation again.
    pub fn args(&self) -> &[Arg]
        ensures args { result.now ≡ self.now.args }
        ensures reads { IsReadAgain self.now }
    {
        &self.args
    }

    /// Appends its name, and each argument behind a space. After a refusal some of it may have been appended.
    pub fn print(&self, into: &mut Vec<u8>) -> Result<(), NoMemory>
        ensures { OnOk result (into.new.items ≡ into.old.items ++ op_text self.now) }
    {
        into.extend_from_slice(self.row.name())?;
        print_arguments(&self.args, into)
    }
}
