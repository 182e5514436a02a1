// What breaks a run off.
use ff_io::Failed;
use ff_rec::NoMemory;

/// Why the work breaks off before its end.
#[derive(Clone, Copy, Debug, PartialEq, Eq)]
pub enum Halt {
    /// The sink failed. Nothing more is read.
    Write,
    NoMemory,
}

/// Why a run ended without its answer.
#[derive(Clone, Copy, Debug, PartialEq, Eq)]
pub enum RunFault {
    /// A wrap has more tasks than its limit. Nothing was written.
    Tasks,
    /// The sink failed. Nothing more is read.
    Write,
    NoMemory,
}

impl From<NoMemory> for Halt {
    ghost use Rattle.std.specs.Prelude.{◌≡◌};
    ghost use Rattle.ff_stream.specs.declared.fault.Halt.TheVariants.{NoMemory};

    ghost from_gives = { λ _ halt. halt ≡ NoMemory };

    fn from(_: NoMemory) -> Halt {
        Halt::NoMemory
    }
}

impl From<Failed> for Halt {
    ghost use Rattle.std.specs.Prelude.{◌≡◌};
    ghost use Rattle.ff_stream.specs.declared.fault.Halt.TheVariants.{Write};

    ghost from_gives = { λ _ halt. halt ≡ Write };

    fn from(_: Failed) -> Halt {
        Halt::Write
    }
}

impl From<Halt> for RunFault {
    ghost use Rattle.std.specs.Prelude.{◌≡◌};
    ghost use Rattle.ff_stream.specs.Endings.{halted};

    ghost from_gives = { λ halt fault. fault ≡ halted halt };

    fn from(halt: Halt) -> RunFault {
        match halt {
            Halt::Write => RunFault::Write,
            Halt::NoMemory => RunFault::NoMemory,
        }
    }
}

impl From<Failed> for RunFault {
    ghost use Rattle.std.specs.Prelude.{◌≡◌};
    ghost use Rattle.ff_stream.specs.declared.fault.RunFault.TheVariants.{Write};

    ghost from_gives = { λ _ fault. fault ≡ Write };

    fn from(_: Failed) -> RunFault {
        RunFault::Write
    }
}

impl From<NoMemory> for RunFault {
    ghost use Rattle.std.specs.Prelude.{◌≡◌};
    ghost use Rattle.ff_stream.specs.declared.fault.RunFault.TheVariants.{NoMemory};

    ghost from_gives = { λ _ fault. fault ≡ NoMemory };

    fn from(_: NoMemory) -> RunFault {
        RunFault::NoMemory
    }
}
