// From the words of a statement to the statement.
ghost use Rattle.std.specs.Prelude.{◌≡◌, IfOk};
ghost use Rattle.ff_prog.specs.Words.{words};
ghost use Rattle.ff_prog.specs.Grammar.{statement, out, task, task_of_two, call, made};

use crate::operands::{Operands, Targets, name, one_target, read_operands, two_targets};
use crate::word::first_word;
use crate::{MdfOp, Names, Statement};
use ff_rec::NoMemory;
use std::alloc::Global;

/// The statement that a piece of a text is.
pub(crate) fn statement(alloc: Global, piece: &[u8]) -> Result<Option<Statement>, NoMemory>
    ensures { IfOk result (λ s. s ≡ statement (words piece.now)) }
{
    let Some((word, rest)) = first_word(piece) else {
        return Ok(None);
    };
    if word == b"out".as_slice() {
        return out(alloc, rest);
    }
    Ok(task(word, rest))
}

// `out`, from behind its word on.
fn out(alloc: Global, rest: &[u8]) -> Result<Option<Statement>, NoMemory>
    ensures { IfOk result (λ s. s ≡ out (words rest.now)) }
{
    let mut ahead = first_word(rest);
    if ahead.is_none() {
        return Ok(None);
    }
    let mut names = Vec::new(alloc);
    while let Some((word, rest)) = ahead {
        let Some(name) = name(word) else {
            return Ok(None);
        };
        names.push(name)?;
        ahead = first_word(rest);
    }
    Ok(Some(Statement::Out(Names::of(names))))
}

// A task, from behind its first word on.
fn task(first: &[u8], rest: &[u8]) -> Option<Statement>
    ensures { result ≡ task first.now (words rest.now) }
{
    let (second, rest) = first_word(rest)?;
    if second == b"=".as_slice() {
        return call(one_target(first)?, rest);
    }
    task_of_two(first, second, rest)
}

// A task, from behind its two first words on.
fn task_of_two(first: &[u8], second: &[u8], rest: &[u8]) -> Option<Statement>
    ensures { result ≡ task_of_two first.now second.now (words rest.now) }
{
    let (equal, rest) = first_word(rest)?;
    if equal == b"=".as_slice() {
        call(two_targets(first, second)?, rest)
    } else {
        None
    }
}

// A task, from its operation on.
fn call(targets: Targets, rest: &[u8]) -> Option<Statement>
    ensures { result ≡ call (words rest.now) targets }
{
    let (op, rest) = first_word(rest)?;
    let op = MdfOp::named(op)?;
    made(op, targets, read_operands(rest)?)
}

// A task from its parts.
fn made(op: MdfOp, targets: Targets, operands: Operands) -> Option<Statement>
    ensures { result ≡ made op targets operands }
{
    let (first, second) = match targets {
        Targets::One(first) => (first, None),
        Targets::Two(first, second) => (first, Some(second)),
    };
    let (a, b, c) = match operands {
        Operands::One(a) => (a, None, None),
        Operands::Two(a, b) => (a, Some(b), None),
        Operands::Three(a, b, c) => (a, Some(b), Some(c)),
    };
    let fits = match op {
        MdfOp::Copy | MdfOp::Neg => second.is_none() && b.is_none(),
        MdfOp::Pick => second.is_none() && c.is_some(),
        MdfOp::DivMod => second.is_some() && b.is_some() && c.is_none(),
        _ => second.is_none() && b.is_some() && c.is_none(),
    };
    if !fits {
        return None;
    }
    Some(Statement::Task {
        first,
        second,
        op,
        a,
        b,
        c,
    })
}
