// Why a soak has no summary.
use ff_rec::NoMemory;

/// Why a soak has no summary.
#[derive(Clone, Copy, Debug, PartialEq, Eq)]
pub enum SoakFault {
    /// The start of a thread was refused.
    Refused,
    NoMemory,
}

impl From<NoMemory> for SoakFault {
    ghost use Rattle.std.specs.Prelude.{◌≡◌};
    ghost use Rattle.ff_soak.specs.declared.fault.SoakFault.TheVariants.{NoMemory};

    ghost from_gives = { λ _ fault. fault ≡ NoMemory };

    fn from(_: NoMemory) -> SoakFault {
        SoakFault::NoMemory
    }
}
