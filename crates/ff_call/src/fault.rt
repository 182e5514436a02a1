// Why a call didn't do its work.
ghost use Rattle.std.specs.Prelude.{◌≡◌};
ghost use Rattle.ff_call.specs.Messages.{message, Writes};
ghost use Rattle.ff_call.specs.Statuses.{fault_status, rejected_by};

use crate::pieces::{write_memory, write_named, write_number, write_piece};
use crate::place::write_rule;
use crate::spots::{name_of, write_byte, write_line, write_program_rule, write_statement};
use ff_io::{Failed, Sink};
use ff_net::RuleFault;
use ff_rec::{LineFault, NoMemory};
use ff_text::TextKind;
use ff_words::Text;

/// The cause by which a call ended, of any command. Each has a status and a message. Where a run wrote a whole answer before,
/// the number of records that were rejected stands behind the cause.
#[derive(Debug, Drop)]
pub enum Fault {
    /// The words aren't a command.
    Usage,
    /// The command isn't one of those that are built.
    NotBuilt,
    /// The file of this name, which is given, couldn't be read.
    File(Text),
    /// The text that is given has more bytes than a text may have.
    TooLong,
    /// It spells no network: its first fault, and the place of its first byte.
    BadText { at: usize, kind: TextKind },
    /// Its network breaks a rule.
    BrokenRule(RuleFault),
    /// It is no program: its first statement that is none of the grammar, counted from 1.
    BadStatement(u32),
    /// Its program breaks a rule, the lowest, first at this statement, or has no `out` statement where that is 0.
    BrokenProgram { rule: u8, statement: u32 },
    /// The network can't be swept: a wrap stands in it, or something goes on demand.
    NoSweep,
    /// The start of a thread was refused.
    Refused,
    /// A wrap has more than so many tasks.
    Tasks(u64),
    /// A line or the input passes a limit.
    Line(LineFault, u64),
    /// The input gave no more bytes, before its end.
    Read(u64),
    /// The output took no more bytes.
    Write,
    /// The file of this name, for the rejected records, couldn't be written.
    Rejects(Text, u64),
    NoMemory,
}

impl Fault {
    /// The status that a process ends with.
    pub fn status(&self) -> u8
        ensures { result ≡ fault_status self.now }
    {
        match self {
            Fault::Usage => 1,
            Fault::NotBuilt
            | Fault::TooLong
            | Fault::BadText { .. }
            | Fault::BrokenRule(_)
            | Fault::BadStatement(_)
            | Fault::BrokenProgram { .. }
            | Fault::NoSweep => 2,
            Fault::Tasks(_) | Fault::Line(_, _) => 3,
            Fault::File(_) | Fault::Read(_) | Fault::Write | Fault::Rejects(_, _) => 4,
            Fault::Refused => 5,
            Fault::NoMemory => 6,
        }
    }

    /// How many records were rejected, where it tells that.
    pub fn rejected(&self) -> u64
        ensures { result ≡ rejected_by self.now }
    {
        match self {
            Fault::Line(_, rejected) | Fault::Read(rejected) | Fault::Rejects(_, rejected) => {
                *rejected
            }
            _ => 0,
        }
    }

    /// Writes the message.
    pub fn write<E: Sink>(&self, sink: &mut E) -> Result<(), Failed>
        ensures { Writes (E.taken sink.old) (E.taken sink.new)
            (E.faults sink.old) (E.faults sink.new) (message self.now) result }
    {
        match self {
            Fault::Usage => {
                write_piece(sink, b"ffrun: usage: run, check, plan, mdf, dc or soak\n")
            }
            Fault::NotBuilt => write_piece(sink, b"ffrun: not built\n"),
            Fault::File(name) => write_named(sink, b"ffrun: cannot read ", name),
            Fault::TooLong => write_piece(sink, b"ffrun: text too long\n"),
            Fault::BadText { at, kind } => write_byte(sink, *at, name_of(*kind)),
            Fault::BrokenRule(broken) => write_rule(sink, broken),
            Fault::BadStatement(statement) => write_statement(sink, *statement),
            Fault::BrokenProgram { rule, statement } => {
                write_program_rule(sink, *rule, *statement)
            }
            Fault::NoSweep => write_piece(sink, b"ffrun: no sweep for this network\n"),
            Fault::Refused => write_piece(sink, b"ffrun: a thread was refused\n"),
            Fault::Tasks(most) => write_number(sink, b"ffrun: more than ", *most, b" tasks\n"),
            Fault::Line(passed, _) => write_line(sink, passed),
            Fault::Read(_) => write_piece(sink, b"ffrun: read fault\n"),
            Fault::Write => write_piece(sink, b"ffrun: write fault\n"),
            Fault::Rejects(name, _) => write_named(sink, b"ffrun: cannot write ", name),
            Fault::NoMemory => write_memory(sink),
        }
    }
}

impl From<NoMemory> for Fault {
    ghost use Rattle.std.specs.Prelude.{◌≡◌};
    ghost use Rattle.ff_call.specs.declared.fault.Fault.TheVariants.{NoMemory};

    ghost from_gives = { λ _ fault. fault ≡ NoMemory };

    fn from(_: NoMemory) -> Fault {
        Fault::NoMemory
    }
}
