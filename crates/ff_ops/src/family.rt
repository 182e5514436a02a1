// Every operation as one of the five families.
ghost use Rattle.std.specs.Prelude.{◌≡◌, IfOk};
ghost use Rattle.ff_ops.specs.Families.{family_of};

use crate::given::{cmp_at, count_at, needle_at, number_at, text_at};
use crate::{
    Arg, Counts, FieldOp, FoldNode, FoldOp, KeyedOp, NumberOp, NumberRule, OrderedOp, Row, Totals,
};
use ff_node::{Class, Next, Node, Sends};
use ff_rec::{NoMemory, Record};
use std::alloc::Global;

/// An operation with its arguments and its state.
#[derive(Debug, Drop)]
pub enum Family {
    Number(NumberOp),
    Field(FieldOp),
    Ordered(OrderedOp),
    Fold(FoldNode),
    Keyed(KeyedOp),
}

impl Family {
    /// The operation of a row with its arguments, before its first record.
    pub fn new(alloc: Global, row: Row, args: &[Arg]) -> Result<Family, NoMemory>
        ensures { IfOk result (λ family. family ≡ family_of row args.now) }
    {
        let first = count_at(args, 0);
        let field = first as usize;
        let number = |rule| Family::Number(NumberOp { field, rule });
        let fold = |op| Family::Fold(FoldNode::new(alloc, op));
        Ok(match row {
            Row::Id => Family::Field(FieldOp::Id),
            Row::Add => number(NumberRule::Add(number_at(args, 1))),
            Row::Sub => number(NumberRule::Sub(number_at(args, 1))),
            Row::Mul => number(NumberRule::Mul(number_at(args, 1))),
            Row::Div => number(NumberRule::Div(number_at(args, 1))),
            Row::Rem => number(NumberRule::Rem(number_at(args, 1))),
            Row::Neg => number(NumberRule::Neg),
            Row::Set => Family::Field(FieldOp::Set(field, text_at(alloc, args, 1)?)),
            Row::Keep => Family::Field(FieldOp::Keep(field)),
            Row::Drop => Family::Field(FieldOp::Drop(field)),
            Row::Swap => Family::Field(FieldOp::Swap(field, count_at(args, 1) as usize)),
            Row::Copy => Family::Field(FieldOp::Copy(field)),
            Row::Len => Family::Field(FieldOp::Len(field)),
            Row::Upper => Family::Field(FieldOp::Upper(field)),
            Row::Lower => Family::Field(FieldOp::Lower(field)),
            Row::If => number(NumberRule::If(cmp_at(args, 1), number_at(args, 2))),
            Row::IfEq => Family::Field(FieldOp::IfEq(field, text_at(alloc, args, 1)?)),
            Row::Has => Family::Field(FieldOp::Has(field, needle_at(alloc, args, 1)?)),
            Row::Words => Family::Field(FieldOp::Words(field)),
            Row::Dup => Family::Field(FieldOp::Dup(field)),
            Row::Halve => number(NumberRule::Halve),
            Row::Plus => number(NumberRule::Plus(count_at(args, 1) as usize)),
            Row::Number => Family::Ordered(OrderedOp::Number(1)),
            Row::RunSum => Family::Ordered(OrderedOp::RunSum(field, 0)),
            Row::Delta => Family::Ordered(OrderedOp::Delta(field, 0)),
            Row::Take => Family::Ordered(OrderedOp::Take(first.into(), first.into())),
            Row::Skip => Family::Ordered(OrderedOp::Skip(first.into(), first.into())),
            Row::Uniq => Family::Ordered(OrderedOp::Uniq(field, None)),
            Row::Tally => fold(FoldOp::Tally(0)),
            Row::Total => fold(FoldOp::Total(field, 0, 0)),
            Row::Min => fold(FoldOp::Min(field, None)),
            Row::Max => fold(FoldOp::Max(field, None)),
            Row::TallyBy => Family::Keyed(KeyedOp::TallyBy(first, Counts::new(alloc))),
            Row::TotalBy => {
                let second = count_at(args, 1) as usize;
                Family::Keyed(KeyedOp::TotalBy(first, second, Totals::new(alloc)))
            }
        })
    }
}

impl Node for Family {
    ghost use Rattle.ff_ops.specs.Families.{family_node};
    ghost use Rattle.ff_ops.specs.FamilyLaws.{family_keeps_kind, family_class_law};

    ghost does = { family_node };

    ghost keeps_kind = { family_keeps_kind };

    ghost class_law = { family_class_law };

    fn class(&self) -> Class {
        match self {
            Family::Number(op) => op.class(),
            Family::Field(op) => op.class(),
            Family::Ordered(op) => op.class(),
            Family::Fold(op) => op.class(),
            Family::Keyed(op) => op.class(),
        }
    }

    fn copy(&self) -> Result<Family, NoMemory> {
        Ok(match self {
            Family::Number(op) => Family::Number(Node::copy(op)?),
            Family::Field(op) => Family::Field(Node::copy(op)?),
            Family::Ordered(op) => Family::Ordered(Node::copy(op)?),
            Family::Fold(op) => Family::Fold(Node::copy(op)?),
            Family::Keyed(op) => Family::Keyed(Node::copy(op)?),
        })
    }

    fn svc_init(&mut self) {
        match self {
            Family::Number(op) => op.svc_init(),
            Family::Field(op) => op.svc_init(),
            Family::Ordered(op) => op.svc_init(),
            Family::Fold(op) => op.svc_init(),
            Family::Keyed(op) => op.svc_init(),
        }
    }

    // Always inline: a record that is handed on through memory is moved once more.
    #[inline(always)]
    fn svc(&mut self, r: Record, out: &mut Sends) -> Result<Next, NoMemory> {
        match self {
            Family::Number(op) => op.svc(r, out),
            Family::Field(op) => op.svc(r, out),
            Family::Ordered(op) => op.svc(r, out),
            Family::Fold(op) => op.svc(r, out),
            Family::Keyed(op) => op.svc(r, out),
        }
    }

    fn eos_notify(&mut self, out: &mut Sends) -> Result<(), NoMemory> {
        match self {
            Family::Number(op) => op.eos_notify(out),
            Family::Field(op) => op.eos_notify(out),
            Family::Ordered(op) => op.eos_notify(out),
            Family::Fold(op) => op.eos_notify(out),
            Family::Keyed(op) => op.eos_notify(out),
        }
    }

    fn svc_end(&mut self) {
        match self {
            Family::Number(op) => op.svc_end(),
            Family::Field(op) => op.svc_end(),
            Family::Ordered(op) => op.svc_end(),
            Family::Fold(op) => op.svc_end(),
            Family::Keyed(op) => op.svc_end(),
        }
    }
}
