// What is wrong with an input of numbers.
use ff_rec::{LineFault, NoMemory};

/// The most numbers that an input may have.
pub const MOST_NUMBERS: usize = 262_144;

/// Why an input gave no list of numbers. Lines are numbered from 1.
#[derive(Clone, Copy, Debug, PartialEq, Eq)]
pub enum InputFault {
    /// A read failed before the end of the input.
    Read,
    /// A line or the input passes a limit.
    Line(LineFault),
    /// This line isn't one number.
    NotNumber(u64),
    /// There are more lines than an input may have numbers.
    TooMany,
    NoMemory,
}

impl From<NoMemory> for InputFault {
    ghost use Rattle.std.specs.Prelude.{◌≡◌};
    ghost use Rattle.ff_numbers.specs.declared.fault.InputFault.TheVariants.{NoMemory};

    ghost from_gives = { λ _ fault. fault ≡ NoMemory };

    fn from(_: NoMemory) -> InputFault {
        InputFault::NoMemory
    }
}
