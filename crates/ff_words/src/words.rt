// From words to a command.
ghost use Rattle.std.specs.Prelude.{◌≡◌, None, Some, IfOk, IsErrOf};
ghost use Rattle.ff_words.specs.Parsed.{texts};
ghost use Rattle.ff_words.specs.Words.{command, read_by};
ghost use Rattle.ff_words.specs.Arguments.{run_app, check_app, plan_app, mdf_app, dc_app, soak_app};
ghost use Rattle.ff_words.specs.Rows.{run_of, check_of, plan_of, mdf_of, dc_of, soak_of};

use crate::arguments::{
    check_arguments, dc_arguments, mdf_arguments, plan_arguments, run_arguments, soak_arguments,
};
use crate::parse::parse;
use crate::values::{check_of, dc_of, mdf_of, plan_of, run_of, soak_of};
use crate::{Command, CommandFault};
use std::alloc::Global;

/// The command that words are, which stand behind a program's name.
pub fn read_command(alloc: Global, words: &[String]) -> Result<Command, CommandFault>
    ensures ok { IfOk result (λ c. command (texts words.now) ≡ Some c) }
    ensures usage { IsErrOf result CommandFault.Usage → command (texts words.now) ≡ None }
{
    let [name, ..] = words else {
        return Err(CommandFault::Usage);
    };
    match name.as_str() {
        "run" => read_run(alloc, words),
        "check" => read_check(alloc, words),
        "plan" => read_plan(alloc, words),
        "mdf" => read_mdf(alloc, words),
        "dc" => read_dc(alloc, words),
        "soak" => read_soak(alloc, words),
        _ => Err(CommandFault::Usage),
    }
}

// The command `run`.
fn read_run(alloc: Global, words: &[String]) -> Result<Command, CommandFault>
    ensures ok { IfOk result (λ c. read_by run_app run_of (texts words.now) ≡ Some c) }
    ensures usage { IsErrOf result CommandFault.Usage → read_by run_app run_of (texts words.now) ≡ None }
{
    let matches = parse(run_arguments(alloc)?, words)?;
    run_of(alloc, &matches)
}

// The command `check`.
fn read_check(alloc: Global, words: &[String]) -> Result<Command, CommandFault>
    ensures ok { IfOk result (λ c. read_by check_app check_of (texts words.now) ≡ Some c) }
    ensures usage { IsErrOf result CommandFault.Usage → read_by check_app check_of (texts words.now) ≡ None }
{
    let matches = parse(check_arguments(alloc)?, words)?;
    check_of(alloc, &matches)
}

// The command `plan`.
fn read_plan(alloc: Global, words: &[String]) -> Result<Command, CommandFault>
    ensures ok { IfOk result (λ c. read_by plan_app plan_of (texts words.now) ≡ Some c) }
    ensures usage { IsErrOf result CommandFault.Usage → read_by plan_app plan_of (texts words.now) ≡ None }
{
    let matches = parse(plan_arguments(alloc)?, words)?;
    plan_of(alloc, &matches)
}

// The command `mdf`.
fn read_mdf(alloc: Global, words: &[String]) -> Result<Command, CommandFault>
    ensures ok { IfOk result (λ c. read_by mdf_app mdf_of (texts words.now) ≡ Some c) }
    ensures usage { IsErrOf result CommandFault.Usage → read_by mdf_app mdf_of (texts words.now) ≡ None }
{
    let matches = parse(mdf_arguments(alloc)?, words)?;
    mdf_of(alloc, &matches)
}

// The command `dc`.
fn read_dc(alloc: Global, words: &[String]) -> Result<Command, CommandFault>
    ensures ok { IfOk result (λ c. read_by dc_app dc_of (texts words.now) ≡ Some c) }
    ensures usage { IsErrOf result CommandFault.Usage → read_by dc_app dc_of (texts words.now) ≡ None }
{
    let matches = parse(dc_arguments(alloc)?, words)?;
    dc_of(&matches).ok_or(CommandFault::Usage)
}

// The command `soak`.
fn read_soak(alloc: Global, words: &[String]) -> Result<Command, CommandFault>
    ensures ok { IfOk result (λ c. read_by soak_app soak_of (texts words.now) ≡ Some c) }
    ensures usage { IsErrOf result CommandFault.Usage → read_by soak_app soak_of (texts words.now) ≡ None }
{
    let matches = parse(soak_arguments(alloc)?, words)?;
    soak_of(&matches).ok_or(CommandFault::Usage)
}
