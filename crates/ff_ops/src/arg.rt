// The arguments of an operation.
ghost use Rattle.std.specs.Prelude.{◌≡◌, ◌++◌, IfOk, OnOk, OnErr};
ghost use Rattle.ff_ops.specs.Arguments.{suits, is_within, printed_argument, mark_of};

use ff_node::Cmp;
use ff_rec::{Field, Kept, NoMemory};
use itoa::Buffer;

/// An argument as it stands in a text.
#[derive(Debug, Drop)]
pub enum Arg {
    Num(i64),
    Cmp(Cmp),
    Text(Field),
}

/// What may stand in a place of an operation's arguments.
#[derive(Clone, Copy, Debug, PartialEq, Eq)]
pub enum ArgKind {
    /// A field number, from 1 to 64.
    Field,
    /// Any number of 64 bits.
    Num,
    /// A number other than 0.
    NonZero,
    /// A number from `low` to `high`.
    Count { low: u32, high: u32 },
    Cmp,
    Text,
}

impl Arg {
    /// Whether it is of a kind, its range left aside.
    pub fn suits(&self, kind: ArgKind) -> bool
        ensures { result ≡ suits self.now kind }
    {
        match self {
            Arg::Num(_) => !matches!(kind, ArgKind::Cmp | ArgKind::Text),
            Arg::Cmp(_) => matches!(kind, ArgKind::Cmp),
            Arg::Text(_) => matches!(kind, ArgKind::Text),
        }
    }

    /// Whether it is within the range of a kind, where the kind is one of numbers and it is a number.
    pub fn is_within(&self, kind: ArgKind) -> bool
        ensures { result ≡ is_within self.now kind }
    {
        match (self, kind) {
            (Arg::Num(n), ArgKind::Field) => 1 <= *n && *n <= 64,
            (Arg::Num(n), ArgKind::NonZero) => *n != 0,
            (Arg::Num(n), ArgKind::Count { low, high }) => {
                i64::from(low) <= *n && *n <= i64::from(high)
            }
            _ => true,
        }
    }

    /// Appends it as it stands in a text: a number in digits, a comparison by its mark, a text in its quotes.
    pub fn print(&self, into: &mut Vec<u8>) -> Result<(), NoMemory>
        ensures { OnOk result (into.new.items ≡ into.old.items ++ printed_argument self.now) }
    {
        match self {
            Arg::Num(n) => into.extend_from_slice(Buffer::new().format(*n).as_bytes())?,
            Arg::Cmp(cmp) => into.extend_from_slice(mark(*cmp))?,
            Arg::Text(text) => {
                into.push(b'"')?;
                into.extend_from_slice(text.bytes())?;
                into.push(b'"')?;
            }
        }
        Ok(())
    }
}

impl Kept for Arg {
    fn copy(&self) -> Result<Arg, NoMemory> {
        Ok(match self {
            Arg::Num(n) => Arg::Num(*n),
            Arg::Cmp(cmp) => Arg::Cmp(*cmp),
            Arg::Text(text) => Arg::Text(text.copy()?),
        })
    }
}

// The mark of a comparison.
fn mark(cmp: Cmp) -> &'static [u8]
    ensures { result.now ≡ mark_of cmp }
{
    match cmp {
        Cmp::Lt => b"<",
        Cmp::Le => b"<=",
        Cmp::Eq => b"=",
        Cmp::Ne => b"!=",
        Cmp::Ge => b">=",
        Cmp::Gt => b">",
    }
}
