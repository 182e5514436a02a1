// What is wrong with a program.
use ff_rec::NoMemory;
use std::alloc::{AllocError, AllocFailed};

/// Why a text isn't a program, or a program isn't run. Statements are numbered from 1.
#[derive(Clone, Copy, Debug, PartialEq, Eq)]
pub enum ProgFault {
    /// This statement is the first that isn't of the grammar.
    Syntax(u32),
    /// The lowest rule that is broken, and its first statement.
    ///
    /// 1. There are at most 4,096 tasks.
    /// 2. There are at most 1,024 different names.
    /// 3. Each name that a task reads is written by an earlier task.
    /// 4. The two names of a task differ.
    /// 5. There is one `out` statement, the last, with at most 64 names, all different. Where there
    ///    is none, statement 0 is named.
    /// 6. Each name that is put out is written by a task.
    Rule { rule: u8, statement: u32 },
    /// The text has more than 65,536 bytes.
    TooLong,
    NoMemory,
}

impl From<NoMemory> for ProgFault {
    ghost use Rattle.std.specs.Prelude.{◌≡◌};
    ghost use Rattle.ff_prog.specs.declared.fault.ProgFault.TheVariants.{NoMemory};

    ghost from_gives = { λ _ fault. fault ≡ NoMemory };

    fn from(_: NoMemory) -> ProgFault {
        ProgFault::NoMemory
    }
}

impl From<AllocError> for ProgFault {
    ghost use Rattle.std.specs.Prelude.{◌≡◌};
    ghost use Rattle.ff_prog.specs.declared.fault.ProgFault.TheVariants.{NoMemory};

    ghost from_gives = { λ _ fault. fault ≡ NoMemory };

    fn from(_: AllocError) -> ProgFault {
        ProgFault::NoMemory
    }
}

impl<T: Drop> From<AllocFailed<T>> for ProgFault {
    ghost use Rattle.std.specs.Prelude.{◌≡◌};
    ghost use Rattle.ff_prog.specs.declared.fault.ProgFault.TheVariants.{NoMemory};

    ghost from_gives = { λ _ fault. fault ≡ NoMemory };

    fn from(_: AllocFailed<T>) -> ProgFault {
        ProgFault::NoMemory
    }
}
