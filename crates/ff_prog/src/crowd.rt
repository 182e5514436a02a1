// How many names a program has.
ghost use Rattle.std.specs.Prelude.{◌≡◌, ◌<◌, ◌∷◌, [], length, Some, IfOk, OnOk, IfSome, slice_get};
ghost use Rattle.ff_prog.specs.Known.{NotesNames};
ghost use Rattle.ff_prog.specs.Names.{is_crowded, names_of, second_name};
ghost use Rattle.ff_prog.specs.Rules.{first_at};
ghost use Rattle.ff_prog.specs.Writers.{name_in, name_if};

use crate::statement::statement_at;
use crate::{Name, Operand, Statement};
use ff_rec::NoMemory;
use std::alloc::Global;
use std::collections::HashSet;

/// The most different names of a program.
const MOST_NAMES: usize = 1_024;

// The names so far.
type Seen<'a> = HashSet<&'a [u8]>;

/// The first statement with a name too many, counted from 0.
pub(crate) fn first_crowded(
    alloc: Global,
    statements: &[Statement],
) -> Result<Option<usize>, NoMemory>
    ensures first { IfOk result (λ k. k ≡ first_at is_crowded statements.now) }
    ensures within { IfOk result (λ o. IfSome o (λ k. k < length statements.now)) }
{
    let mut seen = HashSet::new(alloc);
    for k in 0..statements.len() {
        note_at(&mut seen, statements, k)?;
        if MOST_NAMES < seen.len() {
            return Ok(Some(k));
        }
    }
    Ok(None)
}

// Notes the names of statement `k`.
fn note_at<'a>(seen: &mut Seen<'a>, statements: &'a [Statement], k: usize) -> Result<(), NoMemory>
    ensures { OnOk result
        (NotesNames seen.old.keys seen.new.keys (names_of (slice_get statements.now k))) }
{
    match statement_at(statements, k) {
        Some(statement) => note_statement(seen, statement),
        None => Ok(()),
    }
}

// Notes the names of a statement.
fn note_statement<'a>(seen: &mut Seen<'a>, statement: &'a Statement) -> Result<(), NoMemory>
    ensures { OnOk result (NotesNames seen.old.keys seen.new.keys (names_of (Some statement.now))) }
{
    match statement {
        Statement::Task {
            first,
            second,
            op: _,
            a,
            b,
            c,
        } => {
            note(seen, first)?;
            note_second(seen, second)?;
            note_operand(seen, a)?;
            note_operand_if(seen, b)?;
            note_operand_if(seen, c)
        }
        Statement::Out(names) => {
            for name in names.as_slice() {
                note(seen, name)?;
            }
            Ok(())
        }
    }
}

// Notes a second name, where there is one.
fn note_second<'a>(seen: &mut Seen<'a>, second: &'a Option<Name>) -> Result<(), NoMemory>
    ensures { OnOk result (NotesNames seen.old.keys seen.new.keys (second_name second.now)) }
{
    match second {
        Some(second) => note(seen, second),
        None => Ok(()),
    }
}

// Notes the name that an operand is.
fn note_operand<'a>(seen: &mut Seen<'a>, operand: &'a Operand) -> Result<(), NoMemory>
    ensures { OnOk result (NotesNames seen.old.keys seen.new.keys (name_in operand.now)) }
{
    match operand {
        Operand::Name(name) => note(seen, name),
        Operand::Num(_) => Ok(()),
    }
}

// Notes the name that an operand is, where there is one.
fn note_operand_if<'a>(seen: &mut Seen<'a>, operand: &'a Option<Operand>) -> Result<(), NoMemory>
    ensures { OnOk result (NotesNames seen.old.keys seen.new.keys (name_if operand.now)) }
{
    match operand {
        Some(operand) => note_operand(seen, operand),
        None => Ok(()),
    }
}

// Notes a name.
fn note<'a>(seen: &mut Seen<'a>, name: &'a Name) -> Result<(), NoMemory>
    ensures { OnOk result (NotesNames seen.old.keys seen.new.keys (name.now ∷ [])) }
{
    seen.insert(name.bytes())?;
    Ok(())
}
