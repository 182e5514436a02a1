// Why a loop breaks off.
use ff_rec::NoMemory;
use ff_spawn::Denial;
use std::alloc::AllocError;

/// Why not all tasks were answered. All threads that were started are joined.
#[derive(Clone, Copy, Debug, PartialEq, Eq)]
pub enum LoopFault {
    /// The start of a thread was refused. No task was given.
    Refused,
    /// Memory ran out: for the loop, its scheduler or a handler.
    NoMemory,
}

impl From<Denial> for LoopFault {
    ghost use Rattle.ff_tasks.specs.Faults.{denied};
    ghost use Rattle.std.specs.Prelude.{◌≡◌};

    ghost from_gives = { λ denial fault. fault ≡ denied denial };

    fn from(denial: Denial) -> LoopFault {
        match denial {
            Denial::Refused => LoopFault::Refused,
            Denial::NoMemory => LoopFault::NoMemory,
        }
    }
}

impl From<NoMemory> for LoopFault {
    ghost use Rattle.std.specs.Prelude.{◌≡◌};
    ghost use Rattle.ff_tasks.specs.declared.fault.LoopFault.TheVariants.{NoMemory};

    ghost from_gives = { λ _ fault. fault ≡ NoMemory };

    fn from(_: NoMemory) -> LoopFault {
        LoopFault::NoMemory
    }
}
