// Operations on the bytes of fields. Fields are counted from 1.
ghost use Rattle.std.specs.Prelude.{◌≡◌, OnOk, IfOk};
ghost use Rattle.ff_ops.specs.Answered.{answered};
ghost use Rattle.ff_ops.specs.Fates.{settled};
ghost use Rattle.ff_ops.specs.FieldOps.{field_answer};

mod edits;
mod fields;
mod filters;
mod several;

use crate::{Fate, Needle};
use edits::{
    append_copy, drop_field, keep_field, set_field, set_len, set_lowercase, set_uppercase,
    swap_fields,
};
use ff_node::{Class, Next, Node, Sends};
use ff_rec::{Field, Kept, NoMemory, Record};
use filters::{contains, equals};
use several::{send_copies_before, split_words};

/// An operation that works on the bytes of fields. It rejects a record whose field isn't there.
#[derive(Debug, Drop)]
pub enum FieldOp {
    Id,
    /// The field becomes a text.
    Set(usize, Field),
    /// The record of the field alone.
    Keep(usize),
    /// The record without the field, which may not be the only one.
    Drop(usize),
    Swap(usize, usize),
    /// The field added again as the last.
    Copy(usize),
    /// The field becomes its number of bytes.
    Len(usize),
    Upper(usize),
    Lower(usize),
    /// The record is sent where the field is a text.
    IfEq(usize, Field),
    /// The record is sent where a text stands in the field.
    Has(usize, Needle),
    /// A record for each longest run of bytes other than space.
    Words(usize),
    /// The record, so many times.
    Dup(usize),
}

impl FieldOp {
    // Sends what the row says, or rejects the record. It stands apart, so that a record that `id` takes passes it by.
    #[inline(never)]
    fn answer(&self, r: Record, out: &mut Sends) -> Result<(), NoMemory>
        ensures { OnOk result (out.new ≡ answered out.old (field_answer self.now r) r) }
    {
        let mut r = r;
        let fate = self.decide(&mut r, out)?;
        fate.settle(r, out)
    }

    // Sends what the row sends before the record itself, and changes the record where it is sent in another form.
    #[inline(always)]
    fn decide(&self, r: &mut Record, out: &mut Sends) -> Result<Fate, NoMemory>
        ensures { IfOk result (λ fate. settled fate out.new r.new
            ≡ answered out.old (field_answer self.now r.old) r.old) }
    {
        match self {
            FieldOp::Id => Ok(Fate::Sent),
            FieldOp::Set(f, text) => set_field(*f, text, r),
            FieldOp::Keep(f) => keep_field(*f, r),
            FieldOp::Drop(f) => drop_field(*f, r),
            FieldOp::Swap(f, g) => swap_fields(*f, *g, r),
            FieldOp::Copy(f) => append_copy(*f, r),
            FieldOp::Len(f) => set_len(*f, r),
            FieldOp::Upper(f) => set_uppercase(*f, r),
            FieldOp::Lower(f) => set_lowercase(*f, r),
            FieldOp::IfEq(f, text) => Ok(Fate::of(equals(*f, text, r))),
            FieldOp::Has(f, text) => Ok(Fate::of(contains(*f, text, r))),
            FieldOp::Words(f) => split_words(*f, r, out),
            FieldOp::Dup(n) => send_copies_before(*n, r, out),
        }
    }
}

impl Node for FieldOp {
    ghost use Rattle.ff_ops.specs.FieldOps.{field_node};
    ghost use Rattle.ff_ops.specs.FieldLaws.{field_keeps_kind, field_class_law};

    ghost does = { field_node };

    ghost keeps_kind = { field_keeps_kind };

    ghost class_law = { field_class_law };

    fn class(&self) -> Class {
        Class::Plain
    }

    fn copy(&self) -> Result<FieldOp, NoMemory> {
        Ok(match self {
            FieldOp::Id => FieldOp::Id,
            FieldOp::Set(f, text) => FieldOp::Set(*f, text.copy()?),
            FieldOp::Keep(f) => FieldOp::Keep(*f),
            FieldOp::Drop(f) => FieldOp::Drop(*f),
            FieldOp::Swap(f, g) => FieldOp::Swap(*f, *g),
            FieldOp::Copy(f) => FieldOp::Copy(*f),
            FieldOp::Len(f) => FieldOp::Len(*f),
            FieldOp::Upper(f) => FieldOp::Upper(*f),
            FieldOp::Lower(f) => FieldOp::Lower(*f),
            FieldOp::IfEq(f, text) => FieldOp::IfEq(*f, text.copy()?),
            FieldOp::Has(f, text) => FieldOp::Has(*f, text.copy()?),
            FieldOp::Words(f) => FieldOp::Words(*f),
            FieldOp::Dup(n) => FieldOp::Dup(*n),
        })
    }

    fn svc_init(&mut self) {}

    // Always inline: what `id` takes is sent on without a way through memory.
    #[inline(always)]
    fn svc(&mut self, r: Record, out: &mut Sends) -> Result<Next, NoMemory> {
        match self {
            FieldOp::Id => out.send(r)?,
            _ => self.answer(r, out)?,
        }
        Ok(Next::GoOn)
    }

    fn eos_notify(&mut self, _out: &mut Sends) -> Result<(), NoMemory> {
        Ok(())
    }

    fn svc_end(&mut self) {}
}
