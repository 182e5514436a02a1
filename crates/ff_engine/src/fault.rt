// Why a run by threads breaks off.
use ff_rec::NoMemory;
use ff_spawn::Denial;
use ff_stream::RunFault;
use std::alloc::AllocError;

/// Why a run by threads ended without its answer.
#[derive(Clone, Copy, Debug, PartialEq, Eq)]
pub enum NetFault {
    /// The start of a thread was refused. Nothing was read and nothing written.
    Refused,
    /// As a run on one thread.
    Run(RunFault),
}

impl From<Denial> for NetFault {
    ghost use Rattle.ff_engine.specs.Faults.{denied};
    ghost use Rattle.std.specs.Prelude.{◌≡◌};

    ghost from_gives = { λ denial fault. fault ≡ denied denial };

    fn from(denial: Denial) -> NetFault {
        match denial {
            Denial::Refused => NetFault::Refused,
            Denial::NoMemory => NetFault::Run(RunFault::NoMemory),
        }
    }
}

impl From<RunFault> for NetFault {
    ghost use Rattle.std.specs.Prelude.{◌≡◌};
    ghost use Rattle.ff_engine.specs.declared.fault.NetFault.TheVariants.{Run};

    ghost from_gives = { λ cause fault. fault ≡ Run cause };

    fn from(cause: RunFault) -> NetFault {
        NetFault::Run(cause)
    }
}

impl From<NoMemory> for NetFault {
    ghost use Rattle.std.specs.Prelude.{◌≡◌};
    ghost use Rattle.ff_engine.specs.declared.fault.NetFault.TheVariants.{Run};
    ghost use Rattle.ff_stream.specs.declared.fault.RunFault.TheVariants.{NoMemory};

    ghost from_gives = { λ _ fault. fault ≡ Run NoMemory };

    fn from(_: NoMemory) -> NetFault {
        NetFault::Run(RunFault::NoMemory)
    }
}

impl From<AllocError> for NetFault {
    ghost use Rattle.std.specs.Prelude.{◌≡◌};
    ghost use Rattle.ff_engine.specs.declared.fault.NetFault.TheVariants.{Run};
    ghost use Rattle.ff_stream.specs.declared.fault.RunFault.TheVariants.{NoMemory};

    ghost from_gives = { λ _ fault. fault ≡ Run NoMemory };

    fn from(_: AllocError) -> NetFault {
        NetFault::Run(RunFault::NoMemory)
    }
}
