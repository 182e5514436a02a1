// Why a text is no network.
use ff_rec::NoMemory;
use std::alloc::AllocFailed;

/// What is wrong with a text at its first fault.
#[derive(Clone, Copy, Debug, PartialEq, Eq)]
pub enum TextKind {
    /// No token begins at this byte.
    BadByte,
    /// Another token is awaited.
    BadToken,
    /// A network is awaited, and the word names none.
    UnknownName,
    /// The number is outside what may stand here.
    Range,
    /// A form would hold networks at depth 17.
    Deep,
    /// The text ends too early.
    End,
    /// The text names too many networks.
    Large,
    /// The word can't be given to a network as its name.
    TakenName,
}

/// Why a text isn't read.
#[derive(Clone, Copy, Debug, PartialEq, Eq)]
pub enum ReadFault {
    /// The first fault, and the place of its first byte, from 0.
    Text { at: usize, kind: TextKind },
    /// The text has more bytes than a text may have.
    TooLong,
    NoMemory,
}

impl From<NoMemory> for ReadFault {
    ghost use Rattle.std.specs.Prelude.{◌≡◌};
    ghost use Rattle.ff_text.specs.declared.fault.ReadFault.TheVariants.{NoMemory};

    ghost from_gives = { λ _ fault. fault ≡ NoMemory };

    fn from(_: NoMemory) -> ReadFault {
        ReadFault::NoMemory
    }
}

impl<T: Drop> From<AllocFailed<T>> for ReadFault {
    ghost use Rattle.std.specs.Prelude.{◌≡◌};
    ghost use Rattle.ff_text.specs.declared.fault.ReadFault.TheVariants.{NoMemory};

    ghost from_gives = { λ _ fault. fault ≡ NoMemory };

    fn from(_: AllocFailed<T>) -> ReadFault {
        ReadFault::NoMemory
    }
}
