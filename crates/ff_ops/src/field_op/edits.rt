// Rows that change a record's fields, so that it is sent. What is missing shows before anything changes.
ghost use Rattle.std.specs.Prelude.{IfOk};
ghost use Rattle.ff_ops.specs.Fates.{Answers};
ghost use Rattle.ff_ops.specs.FieldOps.{field_answer};
ghost use Rattle.ff_ops.specs.declared.field_op.FieldOp.TheVariants.{Set, Keep, Drop, Swap, Copy, Len, Upper, Lower};

use super::fields::{field_copy, has_field};
use crate::Fate;
use ff_rec::{Case, Field, MOST_FIELDS, NoMemory, Record};

/// `set F "T"`
pub(crate) fn set_field(f: usize, text: &Field, r: &mut Record) -> Result<Fate, NoMemory>
    ensures { IfOk result (λ fate. Answers fate (field_answer (Set f text.now) r.old) r.old r.new) }
{
    if !has_field(f, r) {
        return Ok(Fate::Rejected);
    }
    r.set(f, text)?;
    Ok(Fate::Sent)
}

/// `keep F`
pub(crate) fn keep_field(f: usize, r: &mut Record) -> Result<Fate, NoMemory>
    ensures { IfOk result (λ fate. Answers fate (field_answer (Keep f) r.old) r.old r.new) }
{
    if !has_field(f, r) {
        return Ok(Fate::Rejected);
    }
    r.keep_only(f);
    Ok(Fate::Sent)
}

/// `drop F`
pub(crate) fn drop_field(f: usize, r: &mut Record) -> Result<Fate, NoMemory>
    ensures { IfOk result (λ fate. Answers fate (field_answer (Drop f) r.old) r.old r.new) }
{
    if !has_field(f, r) || r.len() == 1 {
        return Ok(Fate::Rejected);
    }
    r.remove(f);
    Ok(Fate::Sent)
}

/// `swap F G`
pub(crate) fn swap_fields(f: usize, g: usize, r: &mut Record) -> Result<Fate, NoMemory>
    ensures { IfOk result (λ fate. Answers fate (field_answer (Swap f g) r.old) r.old r.new) }
{
    if !has_field(f, r) || !has_field(g, r) {
        return Ok(Fate::Rejected);
    }
    r.swap(f, g)?;
    Ok(Fate::Sent)
}

/// `copy F`
pub(crate) fn append_copy(f: usize, r: &mut Record) -> Result<Fate, NoMemory>
    ensures { IfOk result (λ fate. Answers fate (field_answer (Copy f) r.old) r.old r.new) }
{
    let Some(field) = field_copy(f, r)? else {
        return Ok(Fate::Rejected);
    };
    if r.len() == MOST_FIELDS {
        return Ok(Fate::Rejected);
    }
    match r.push(&field) {
        Ok(()) => Ok(Fate::Sent),
        Err(_) => Err(NoMemory),
    }
}

/// `len F`
pub(crate) fn set_len(f: usize, r: &mut Record) -> Result<Fate, NoMemory>
    ensures { IfOk result (λ fate. Answers fate (field_answer (Len f) r.old) r.old r.new) }
{
    match r.field(f).map(|bytes| bytes.len() as i64) {
        Some(length) => {
            r.set_number(f, length)?;
            Ok(Fate::Sent)
        }
        None => Ok(Fate::Rejected),
    }
}

/// `upper F`
pub(crate) fn set_uppercase(f: usize, r: &mut Record) -> Result<Fate, NoMemory>
    ensures { IfOk result (λ fate. Answers fate (field_answer (Upper f) r.old) r.old r.new) }
{
    if !has_field(f, r) {
        return Ok(Fate::Rejected);
    }
    r.set_case(f, Case::Upper);
    Ok(Fate::Sent)
}

/// `lower F`
pub(crate) fn set_lowercase(f: usize, r: &mut Record) -> Result<Fate, NoMemory>
    ensures { IfOk result (λ fate. Answers fate (field_answer (Lower f) r.old) r.old r.new) }
{
    if !has_field(f, r) {
        return Ok(Fate::Rejected);
    }
    r.set_case(f, Case::Lower);
    Ok(Fate::Sent)
}
