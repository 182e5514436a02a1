// What the calls of this crate answer where they can't do their work.
ghost use Rattle.std.specs.Prelude.{◌≡◌, IfOk};
ghost use Rattle.ff_rec.specs.declared.fault.NoMemory.{NoMemory};

use std::alloc::{AllocError, AllocFailed};

/// Memory ran out. It may come wherever a call takes memory.
#[derive(Clone, Copy, Debug, PartialEq, Eq)]
pub struct NoMemory;

/// Why bytes aren't a field.
#[derive(Clone, Copy, Debug, PartialEq, Eq)]
pub enum FieldFault {
    /// A tab or a newline stands at this place, counted from 0, and none before it.
    BadByte(usize),
    NoMemory,
}

/// Why a field wasn't added to a record.
#[derive(Clone, Copy, Debug, PartialEq, Eq)]
pub enum PushFault {
    /// The record has 64 fields.
    Full,
    NoMemory,
}

/// Why a line isn't a record.
#[derive(Clone, Copy, Debug, PartialEq, Eq)]
pub enum CutFault {
    /// The line has more than 63 tabs.
    TooManyFields,
    NoMemory,
}

/// The first limit of a text that was passed. Lines are counted from 1.
#[derive(Clone, Copy, Debug, PartialEq, Eq)]
pub enum LineFault {
    /// This line has more bytes than a line may have, its newline not counted.
    TooLong(u64),
    /// This line has more than 63 tabs.
    TooManyFields(u64),
    /// The text has more bytes than it may have.
    InputTooLong,
}

/// Why no more pieces of a text are read.
#[derive(Clone, Copy, Debug, PartialEq, Eq)]
pub enum FeedFault {
    Line(LineFault),
    NoMemory,
}

impl From<AllocError> for NoMemory {
    fn from(_: AllocError) -> Self {
        NoMemory
    }
}

impl<T: Drop> From<AllocFailed<T>> for NoMemory {
    fn from(_: AllocFailed<T>) -> Self {
        NoMemory
    }
}

impl From<NoMemory> for FeedFault {
    fn from(_: NoMemory) -> Self {
        FeedFault::NoMemory
    }
}

/// What can be copied, as long as memory is there.
pub trait Kept {
    /// An equal value.
    fn copy(&self) -> Result<Self, NoMemory>
        ensures { IfOk result (λ other. other ≡ self.now) };
}
