// The names and the operands of a task, from its words.
ghost use Rattle.std.specs.Prelude.{◌≡◌};
ghost use Rattle.ff_prog.specs.Words.{words, plain_number};
ghost use Rattle.ff_prog.specs.Grammar.{name, operand, operands, first, second, third};
ghost use Rattle.ff_prog.specs.Grammar.{one_target, two_targets};

use crate::word::{first_word, is_name_word};
use crate::{Name, Operand};
use ff_rec::read_number;

/// What a task writes.
#[derive(Drop)]
pub(crate) enum Targets {
    One(Name),
    Two(Name, Name),
}

/// What a task's operation is done on.
#[derive(Drop)]
pub(crate) enum Operands {
    One(Operand),
    Two(Operand, Operand),
    Three(Operand, Operand, Operand),
}

/// The one to three operands.
pub(crate) fn read_operands(rest: &[u8]) -> Option<Operands>
    ensures { result ≡ operands (words rest.now) }
{
    let (word, rest) = first_word(rest)?;
    behind_one(operand(word)?, rest)
}

// The operands, from behind the first on.
fn behind_one(a: Operand, rest: &[u8]) -> Option<Operands>
    ensures { result ≡ first (words rest.now) a }
{
    match first_word(rest) {
        None => Some(Operands::One(a)),
        Some((word, rest)) => behind_two(a, operand(word)?, rest),
    }
}

// The operands, from behind the second on.
fn behind_two(a: Operand, b: Operand, rest: &[u8]) -> Option<Operands>
    ensures { result ≡ second a (words rest.now) b }
{
    match first_word(rest) {
        None => Some(Operands::Two(a, b)),
        Some((word, rest)) => behind_three(a, b, operand(word)?, rest),
    }
}

// The operands, from behind the third on.
fn behind_three(a: Operand, b: Operand, c: Operand, rest: &[u8]) -> Option<Operands>
    ensures { result ≡ third a b (words rest.now) c }
{
    match first_word(rest) {
        None => Some(Operands::Three(a, b, c)),
        Some(_) => None,
    }
}

/// What a task of one name writes.
pub(crate) fn one_target(word: &[u8]) -> Option<Targets>
    ensures { result ≡ one_target word.now }
{
    Some(Targets::One(name(word)?))
}

/// What a task of two names writes.
pub(crate) fn two_targets(word: &[u8], other: &[u8]) -> Option<Targets>
    ensures { result ≡ two_targets word.now other.now }
{
    let first = name(word)?;
    Some(Targets::Two(first, name(other)?))
}

/// The name that a word is.
pub(crate) fn name(word: &[u8]) -> Option<Name>
    ensures { result ≡ name word.now }
{
    if is_name_word(word) {
        Some(Name::of(word))
    } else {
        None
    }
}

// The operand that a word is.
fn operand(word: &[u8]) -> Option<Operand>
    ensures { result ≡ operand word.now }
{
    if is_name_word(word) {
        return Some(Operand::Name(Name::of(word)));
    }
    Some(Operand::Num(plain_number(word)?))
}

// The number that a word is.
fn plain_number(word: &[u8]) -> Option<i64>
    ensures { result ≡ plain_number word.now }
{
    match word {
        [] => None,
        [b'+', ..] => None,
        _ => read_number(word),
    }
}
