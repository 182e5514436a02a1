// The rules on tasks and on what is put out, but for those on who writes a name.
ghost use Rattle.std.specs.Prelude.{◌≡◌, ◌<◌, length, Some, IfSome, position, slice_get};
ghost use Rattle.std.specs.List.{list_any};
ghost use Rattle.ff_prog.specs.Rules.{are_bad_outs, breaks_out, first_at, has_repeat, has_twins};
ghost use Rattle.ff_prog.specs.Rules.{is_in, is_out, is_past_most, is_task};

use crate::statement::{is_second, statement_at};
use crate::{Name, Statement};

/// The most tasks of a program.
const MOST_TASKS: usize = 4_096;

/// The most names that are put out.
const MOST_OUTS: usize = 64;

/// The first task too many, counted from 0.
pub(crate) fn first_past_most(statements: &[Statement]) -> Option<usize>
    ensures first { result ≡ first_at is_past_most statements.now }
    ensures within { IfSome result (λ k. k < length statements.now) }
{
    let mut tasks = 0;
    for k in 0..statements.len() {
        if is_task_at(statements, k) {
            if MOST_TASKS <= tasks {
                return Some(k);
            }
            tasks += 1;
        }
    }
    None
}

// Whether statement `k` is a task.
fn is_task_at(statements: &[Statement], k: usize) -> bool
    ensures { result ≡ is_task (slice_get statements.now k) }
{
    matches!(statement_at(statements, k), Some(Statement::Task { .. }))
}

/// The first task whose two names are the same, counted from 0.
pub(crate) fn first_with_twins(statements: &[Statement]) -> Option<usize>
    ensures first { result ≡ position has_twins statements.now }
    ensures within { IfSome result (λ k. k < length statements.now) }
{
    statements.iter().position(|s| has_twins(s))
}

// Whether the two names of a task are the same.
fn has_twins(statement: &Statement) -> bool
    ensures { result ≡ has_twins statement.now }
{
    match statement {
        Statement::Task { first, second, .. } => is_second(second, first),
        Statement::Out(_) => false,
    }
}

/// Whether there is an `out` statement.
pub(crate) fn has_out(statements: &[Statement]) -> bool
    ensures { result ≡ list_any is_out statements.now }
{
    statements.iter().any(|s| is_out(s))
}

// Whether a statement is `out`.
fn is_out(statement: &Statement) -> bool
    ensures { result ≡ is_out statement.now }
{
    matches!(statement, Statement::Out(_))
}

/// The first `out` statement that isn't the last or puts out what it mustn't, counted from 0.
pub(crate) fn first_bad_out(statements: &[Statement]) -> Option<usize>
    ensures first { result ≡ first_at breaks_out statements.now }
    ensures within { IfSome result (λ k. k < length statements.now) }
{
    for k in 0..statements.len() {
        if is_bad_out(statements, k) {
            return Some(k);
        }
    }
    None
}

// Whether statement `k` is such an `out`.
fn is_bad_out(statements: &[Statement], k: usize) -> bool
    requires { k < length statements.now }
    ensures { result ≡ breaks_out statements.now k }
{
    match statement_at(statements, k) {
        Some(Statement::Out(names)) => {
            k + 1 != statements.len() || are_bad_outs(names.as_slice())
        }
        _ => false,
    }
}

// Whether names are too many to put out, or not all different.
fn are_bad_outs(names: &[Name]) -> bool
    ensures { result ≡ are_bad_outs names.now }
{
    MOST_OUTS < names.len() || has_repeat(names)
}

// Whether a name stands twice. It looks at each pair of them.
fn has_repeat(names: &[Name]) -> bool
    ensures { result ≡ has_repeat names.now }
{
    for (i, name) in names.iter().enumerate() {
        if is_in(&names[i + 1..], name) {
            return true;
        }
    }
    false
}

// Whether a name stands among others.
fn is_in(names: &[Name], name: &Name) -> bool
    ensures { result ≡ is_in names.now name.now }
{
    names.iter().any(|other| name.bytes() == other.bytes())
}
