// Values of single arguments.
ghost use Rattle.std.specs.Prelude.{◌≡◌, IfOk, option_map};
ghost use Rattle.clap.specs.Words.{first_of, found_of, rows_of};
ghost use Rattle.ff_words.specs.Rows.{number_of, stands, queue_named, queue_of, rule_named};

use crate::number::read_number_in;
use crate::{DcRule, Queue, Text};
use clap::ArgMatches;
use std::alloc::{AllocError, Global};

/// What stands for an argument.
pub fn text_of<'a>(matches: &ArgMatches<'a>, name: &str) -> Option<&'a str>
    ensures { option_map (λ text. text.now) result ≡ first_of name.now (rows_of (found_of matches.now)) }
{
    matches.get_str(name)
}

/// What stands for an argument, kept beyond the words.
pub fn kept_of(
    alloc: Global,
    matches: &ArgMatches<'_>,
    name: &str,
) -> Result<Option<Text>, AllocError>
    ensures { IfOk result (λ text. text ≡ first_of name.now (rows_of (found_of matches.now))) }
{
    match text_of(matches, name) {
        Some(text) => Ok(Some(Text::new(alloc, text)?)),
        None => Ok(None),
    }
}

/// The number from `least` to `most` that stands for an argument.
pub fn number_of(matches: &ArgMatches<'_>, name: &str, least: u32, most: u32) -> Option<u32>
    ensures { result ≡ number_of name.now least most (rows_of (found_of matches.now)) }
{
    let n = read_number_in(text_of(matches, name)?, u64::from(least), u64::from(most))?;
    Some(n as u32)
}

/// Whether a flag stands.
pub fn stands(matches: &ArgMatches<'_>, name: &str) -> bool
    ensures { result ≡ stands name.now (rows_of (found_of matches.now)) }
{
    match text_of(matches, name) {
        Some(text) => text == "true",
        None => false,
    }
}

/// The kind of the channels.
pub fn queue_of(matches: &ArgMatches<'_>) -> Option<Queue>
    ensures { result ≡ queue_of (rows_of (found_of matches.now)) }
{
    queue_named(text_of(matches, "queue")?)
}

// The kind of the channels of this name.
fn queue_named(name: &str) -> Option<Queue>
    ensures { result ≡ queue_named name.now }
{
    match name {
        "ring" => Some(Queue::Ring),
        "chain" => Some(Queue::Chain),
        _ => None,
    }
}

/// The rule of this name.
pub fn rule_named(name: &str) -> Option<DcRule>
    ensures { result ≡ rule_named name.now }
{
    match name {
        "fib" => Some(DcRule::Fib),
        "sum" => Some(DcRule::Sum),
        "maxsub" => Some(DcRule::MaxSub),
        "firstmin" => Some(DcRule::FirstMin),
        "bracket" => Some(DcRule::Bracket),
        _ => None,
    }
}
