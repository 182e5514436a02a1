// The values of each command. What isn't within its limits is no command.
ghost use Rattle.std.specs.Prelude.{◌≡◌, None, Some, IfOk, IsErrOf, option_map};
ghost use Rattle.clap.specs.Words.{found_of, rows_of};
ghost use Rattle.ff_words.specs.Rows.{given_of, operand, way_of, run_of, check_of, plan_of, mdf_of, dc_of, soak_of};

use crate::number::read_number_in;
use crate::rows::{kept_of, number_of, queue_of, rule_named, stands, text_of};
use crate::{Command, CommandFault, DcRule, Given, Text, Way};
use clap::ArgMatches;
use std::alloc::Global;

/// The values of `run`.
pub fn run_of(alloc: Global, matches: &ArgMatches<'_>) -> Result<Command, CommandFault>
    ensures ok { IfOk result (λ c. run_of (rows_of (found_of matches.now)) ≡ Some c) }
    ensures usage { IsErrOf result CommandFault.Usage → run_of (rows_of (found_of matches.now)) ≡ None }
{
    let given = given_of(alloc, matches)?;
    let cap = number_of(matches, "cap", 1, 4096).ok_or(CommandFault::Usage)?;
    let queue = queue_of(matches).ok_or(CommandFault::Usage)?;
    let tasks = number_of(matches, "tasks", 1, 10_000_000).ok_or(CommandFault::Usage)?;
    let way = way_of(stands(matches, "one"), stands(matches, "sweep"));
    let way = way.ok_or(CommandFault::Usage)?;
    let rejects = kept_of(alloc, matches, "rejects")?;
    Ok(Command::Run {
        given,
        cap,
        queue,
        tasks: u64::from(tasks),
        way,
        rejects,
    })
}

/// The values of `check`.
pub fn check_of(alloc: Global, matches: &ArgMatches<'_>) -> Result<Command, CommandFault>
    ensures ok { IfOk result (λ c. check_of (rows_of (found_of matches.now)) ≡ Some c) }
    ensures usage { IsErrOf result CommandFault.Usage → check_of (rows_of (found_of matches.now)) ≡ None }
{
    Ok(Command::Check {
        given: given_of(alloc, matches)?,
    })
}

/// The values of `plan`.
pub fn plan_of(alloc: Global, matches: &ArgMatches<'_>) -> Result<Command, CommandFault>
    ensures ok { IfOk result (λ c. plan_of (rows_of (found_of matches.now)) ≡ Some c) }
    ensures usage { IsErrOf result CommandFault.Usage → plan_of (rows_of (found_of matches.now)) ≡ None }
{
    Ok(Command::Plan {
        given: given_of(alloc, matches)?,
    })
}

/// The values of `mdf`.
pub fn mdf_of(alloc: Global, matches: &ArgMatches<'_>) -> Result<Command, CommandFault>
    ensures ok { IfOk result (λ c. mdf_of (rows_of (found_of matches.now)) ≡ Some c) }
    ensures usage { IsErrOf result CommandFault.Usage → mdf_of (rows_of (found_of matches.now)) ≡ None }
{
    let given = given_of(alloc, matches)?;
    let workers = number_of(matches, "workers", 1, 64).ok_or(CommandFault::Usage)?;
    Ok(Command::Mdf { given, workers })
}

/// The values of `dc`.
pub fn dc_of(matches: &ArgMatches<'_>) -> Option<Command>
    ensures { result ≡ dc_of (rows_of (found_of matches.now)) }
{
    let rule = rule_named(text_of(matches, "RULE")?)?;
    let n = operand(rule, text_of(matches, "N"))?;
    let cut = number_of(matches, "cut", 1, 1_000_000)?;
    let workers = number_of(matches, "workers", 1, 64)?;
    Some(Command::Dc {
        rule,
        n,
        cut,
        workers,
    })
}

/// The values of `soak`.
pub fn soak_of(matches: &ArgMatches<'_>) -> Option<Command>
    ensures { result ≡ soak_of (rows_of (found_of matches.now)) }
{
    let n = number_of(matches, "N", 0, 10_000_000)?;
    let workers = number_of(matches, "workers", 1, 16)?;
    let cap = number_of(matches, "cap", 1, 4096)?;
    let queue = queue_of(matches)?;
    Some(Command::Soak {
        n: u64::from(n),
        workers,
        cap,
        queue,
    })
}

// The way of a run. `--one` and `--sweep` together are no command.
fn way_of(one: bool, sweep: bool) -> Option<Way>
    ensures { result ≡ way_of one sweep }
{
    match (one, sweep) {
        (false, false) => Some(Way::Threads),
        (true, false) => Some(Way::One),
        (false, true) => Some(Way::Sweep),
        (true, true) => None,
    }
}

// One of a text and a file.
fn given_of(alloc: Global, matches: &ArgMatches<'_>) -> Result<Given, CommandFault>
    ensures ok { IfOk result (λ given. given_of (rows_of (found_of matches.now)) ≡ Some given) }
    ensures usage { IsErrOf result CommandFault.Usage → given_of (rows_of (found_of matches.now)) ≡ None }
{
    match (text_of(matches, "TEXT"), text_of(matches, "file")) {
        (Some(text), None) => Ok(Given::Text(Text::new(alloc, text)?)),
        (None, Some(file)) => Ok(Given::File(Text::new(alloc, file)?)),
        _ => Err(CommandFault::Usage),
    }
}

// The operand of a rule: a number for `fib`, and no word for the others.
fn operand(rule: DcRule, text: Option<&str>) -> Option<Option<u32>>
    ensures { result ≡ operand rule (option_map (λ t. t.now) text.entry) }
{
    match (rule, text) {
        (DcRule::Fib, Some(text)) => Some(Some(read_number_in(text, 0, 1_000_000)? as u32)),
        (DcRule::Fib, None) | (_, Some(_)) => None,
        (_, None) => Some(None),
    }
}
