// What words ask for.
use crate::Text;
use ff_plan::Queue;
use std::alloc::AllocError;

/// Why words gave no command.
#[derive(Clone, Copy, Debug, PartialEq, Eq)]
pub enum CommandFault {
    /// The words aren't a command.
    Usage,
    NoMemory,
}

/// What divide and conquer works out.
#[derive(Clone, Copy, Debug, PartialEq, Eq)]
pub enum DcRule {
    Fib,
    Sum,
    MaxSub,
    FirstMin,
    Bracket,
}

/// How a network is run.
#[derive(Clone, Copy, Debug, PartialEq, Eq)]
pub enum Way {
    /// By threads.
    Threads,
    /// On the calling thread, record by record.
    One,
    /// On the calling thread, by sweeps over the units.
    Sweep,
}

/// Where a description stands.
#[derive(Debug, Drop)]
pub enum Given {
    /// In the words themselves.
    Text(Text),
    /// In the file of this name.
    File(Text),
}

/// A command, with the values of all its options.
#[derive(Debug, Drop)]
pub enum Command {
    /// Runs a network over the input.
    Run {
        given: Given,
        /// Slots of a ring.
        cap: u32,
        queue: Queue,
        /// The most tasks of a wrap.
        tasks: u64,
        way: Way,
        /// The file for the rejected records.
        rejects: Option<Text>,
    },
    /// Checks a network, and prints it.
    Check {
        given: Given,
    },
    /// Prints the plan of a network.
    Plan {
        given: Given,
    },
    /// Runs a macro dataflow program.
    Mdf {
        given: Given,
        workers: u32,
    },
    /// Divides and conquers.
    Dc {
        rule: DcRule,
        /// The operand, for `fib` alone.
        n: Option<u32>,
        /// The size of a part that isn't divided.
        cut: u32,
        workers: u32,
    },
    /// Runs a network over records that it makes.
    Soak {
        n: u64,
        workers: u32,
        cap: u32,
        queue: Queue,
    },
}

impl From<AllocError> for CommandFault {
    ghost use Rattle.std.specs.Prelude.{◌≡◌};
    ghost use Rattle.ff_words.specs.declared.command.CommandFault.TheVariants.{NoMemory};

    ghost from_gives = { λ _ fault. fault ≡ NoMemory };

    fn from(_: AllocError) -> CommandFault {
        CommandFault::NoMemory
    }
}
