// The words as `clap` reads them.
ghost use Rattle.std.specs.Prelude.{◌≡◌, true, None, Some, IfOk, IsErrOf};
ghost use Rattle.clap.specs.Words.{app_of, found_of, is_simple_and_free, rows_of};
ghost use Rattle.ff_words.specs.Parsed.{parsed, texts};

use crate::CommandFault;
use clap::error::ErrorKind;
use clap::{ArgMatches, Command};

/// What the words give to the arguments of a command. The first word is the command's name.
pub fn parse<'a>(command: Command<'a>, words: &'a [String]) -> Result<ArgMatches<'a>, CommandFault>
    requires { is_simple_and_free (app_of command) ≡ true }
    ensures ok { IfOk result (λ m. parsed (app_of command.entry) (texts words.now) ≡ Some (rows_of (found_of m))) }
    ensures usage { IsErrOf result CommandFault.Usage → parsed (app_of command.entry) (texts words.now) ≡ None }
{
    match command.try_get_matches_from(words) {
        Ok(matches) => Ok(matches),
        Err(error) => Err(fault_of(error.kind())),
    }
}

// Every refusal is a fault of the words, help and version among them, but want of memory.
fn fault_of(kind: ErrorKind) -> CommandFault
    ensures { result ≡ CommandFault.Usage → ¬ (kind ≡ ErrorKind.OutOfMemory) }
{
    match kind {
        ErrorKind::OutOfMemory => CommandFault::NoMemory,
        _ => CommandFault::Usage,
    }
}
