// The program of the text that the command is given.
ghost use Rattle.std.specs.Prelude.{◌≡◌, ℕ, IfOk, IfErr};
ghost use Rattle.ff_io.specs.Files.{KeepsAll};
ghost use Rattle.ff_call.specs.Counts.{Files as of_files, count_by, raised};
ghost use Rattle.ff_call_mdf.specs.Programs.{IsProgram, IsProgramFault, IsRead, IsTextFault, told_as};

use ff_call::Fault;
use ff_io::{FileFault, Files};
use ff_mdf::{CheckedProgram, ProgFault, check_program, read_program};
use ff_rec::LONGEST_TEXT;
use ff_words::Given;
use std::alloc::Global;

/// The program of the text that is given, which keeps all rules.
pub fn read_given_program<F: Files>(
    alloc: Global,
    files: &mut F,
    given: Given,
) -> Result<CheckedProgram, Fault>
    ensures ok { IfOk result (λ program. IsProgram (F.told files.old) given program) }
    ensures fault { IfErr result (IsProgramFault (F.told files.old) given) }
    ensures keeps { KeepsAll (F.told files.old) (F.told files.new) }
    ensures counts { F.faults files.new ≡ count_by (raised of_files) (F.faults files.old) result }
{
    match given {
        Given::Text(text) => read_text(alloc, text.as_str().as_bytes()),
        Given::File(name) => match files.load(name.as_str(), LONGEST_TEXT) {
            Ok(text) => read_text(alloc, &text),
            Err(FileFault::Failed) => Err(Fault::File(name)),
            Err(FileFault::TooLong) => Err(Fault::TooLong),
            Err(FileFault::NoMemory) => Err(Fault::NoMemory),
        },
    }
}

// The program of a text.
fn read_text(alloc: Global, text: &[u8]) -> Result<CheckedProgram, Fault>
    ensures ok { IfOk result (IsRead text.now) }
    ensures fault { IfErr result (IsTextFault text.now) }
    ensures none { IfErr result (λ fault. (n : ℕ) → raised of_files n fault ≡ n) }
{
    match read_program(alloc, text) {
        Ok(program) => match check_program(alloc, program) {
            Ok(checked) => Ok(checked),
            Err(fault) => Err(cause_of(fault)),
        },
        Err(fault) => Err(cause_of(fault)),
    }
}

// The cause by which a call ends whose text is at fault so.
fn cause_of(fault: ProgFault) -> Fault
    ensures { result ≡ told_as fault }
{
    match fault {
        ProgFault::Syntax(statement) => Fault::BadStatement(statement),
        ProgFault::Rule { rule, statement } => Fault::BrokenProgram { rule, statement },
        ProgFault::TooLong => Fault::TooLong,
        ProgFault::NoMemory => Fault::NoMemory,
    }
}
