// The arguments of each command, as `clap` has them.
ghost use Rattle.std.specs.Prelude.{◌≡◌, false, IfOk};
ghost use Rattle.clap.specs.Words.{app_of, rule_of};
ghost use Rattle.ff_words.specs.Arguments.{option, option_or, flag, text_app, with_channels, with_ways, with_workers};
ghost use Rattle.ff_words.specs.Arguments.{run_app, check_app, plan_app, mdf_app, dc_app, soak_app};

use clap::{Arg, ArgAction, Command};
use std::alloc::{AllocError, Global};

/// The arguments of `run`.
pub fn run_arguments<'a>(alloc: Global) -> Result<Command<'a>, AllocError>
    ensures { IfOk result (λ c. app_of c ≡ run_app) }
{
    let command = channels(alloc, text_or_file(alloc, "run")?)?;
    let command = command
        .arg(option_or(alloc, "tasks", "1000000"))?
        .arg(option(alloc, "rejects"))?;
    ways(alloc, command)
}

/// The arguments of `check`.
pub fn check_arguments<'a>(alloc: Global) -> Result<Command<'a>, AllocError>
    ensures { IfOk result (λ c. app_of c ≡ check_app) }
{
    text_or_file(alloc, "check")
}

/// The arguments of `plan`.
pub fn plan_arguments<'a>(alloc: Global) -> Result<Command<'a>, AllocError>
    ensures { IfOk result (λ c. app_of c ≡ plan_app) }
{
    text_or_file(alloc, "plan")
}

/// The arguments of `mdf`.
pub fn mdf_arguments<'a>(alloc: Global) -> Result<Command<'a>, AllocError>
    ensures { IfOk result (λ c. app_of c ≡ mdf_app) }
{
    workers(alloc, text_or_file(alloc, "mdf")?)
}

/// The arguments of `dc`.
pub fn dc_arguments<'a>(alloc: Global) -> Result<Command<'a>, AllocError>
    ensures { IfOk result (λ c. app_of c ≡ dc_app) }
{
    let command = Command::new(alloc, "dc")
        .arg(Arg::new(alloc, "RULE").required(true))?
        .arg(Arg::new(alloc, "N"))?
        .arg(option_or(alloc, "cut", "16"))?;
    workers(alloc, command)
}

/// The arguments of `soak`.
pub fn soak_arguments<'a>(alloc: Global) -> Result<Command<'a>, AllocError>
    ensures { IfOk result (λ c. app_of c ≡ soak_app) }
{
    let command = Command::new(alloc, "soak").arg(Arg::new(alloc, "N").required(true))?;
    channels(alloc, workers(alloc, command)?)
}

// A command with `[TEXT]` and the file in its place.
fn text_or_file<'a>(alloc: Global, name: &'a str) -> Result<Command<'a>, AllocError>
    ensures { IfOk result (λ c. app_of c ≡ text_app name.now) }
{
    Command::new(alloc, name)
        .arg(Arg::new(alloc, "TEXT"))?
        .arg(option(alloc, "file").short('f'))
}

// The command with the options for channels.
fn channels<'a>(alloc: Global, command: Command<'a>) -> Result<Command<'a>, AllocError>
    ensures { IfOk result (λ c. app_of c ≡ with_channels (app_of command.entry)) }
{
    command
        .arg(option_or(alloc, "cap", "512"))?
        .arg(option_or(alloc, "queue", "ring"))
}

// The command with the two ways of a run on one thread.
fn ways<'a>(alloc: Global, command: Command<'a>) -> Result<Command<'a>, AllocError>
    ensures { IfOk result (λ c. app_of c ≡ with_ways (app_of command.entry)) }
{
    command.arg(flag(alloc, "one"))?.arg(flag(alloc, "sweep"))
}

// The command with the option for workers.
fn workers<'a>(alloc: Global, command: Command<'a>) -> Result<Command<'a>, AllocError>
    ensures { IfOk result (λ c. app_of c ≡ with_workers (app_of command.entry)) }
{
    command.arg(option_or(alloc, "workers", "4"))
}

// `--name VALUE`.
fn option<'a>(alloc: Global, name: &'a str) -> Arg<'a>
    ensures rule { rule_of result ≡ option name.now }
    ensures local { result.global ≡ false }
{
    Arg::new(alloc, name).long(name)
}

// `--name VALUE`, with the value that it has where it isn't given.
fn option_or<'a>(alloc: Global, name: &'a str, value: &'a str) -> Arg<'a>
    ensures rule { rule_of result ≡ option_or name.now value.now }
    ensures local { result.global ≡ false }
{
    option(alloc, name).default_value(value)
}

// `--name`.
fn flag<'a>(alloc: Global, name: &'a str) -> Arg<'a>
    ensures rule { rule_of result ≡ flag name.now }
    ensures local { result.global ≡ false }
{
    option(alloc, name).action(ArgAction::SetTrue)
}
