// What a put and a step answer.
use ff_rec::Msg;

/// What became of a message that was to be put.
#[derive(Debug, Drop)]
pub enum Put<T> {
    Done,
    /// There was no room. The message comes back.
    Full(Msg<T>),
    /// The channel grows, and found no memory. The message comes back.
    NoMemory(Msg<T>),
}

/// What a unit did in one step, or in many in a row.
#[derive(Clone, Copy, Debug, PartialEq, Eq)]
pub enum Step {
    /// It took or put a message, or more in many steps, or a call of it was refused memory.
    Moved,
    /// Each port at which it looked answered nothing.
    Waits,
    /// It has ended. Each later step answers the same.
    Ended(End),
}

/// How a unit ended.
#[derive(Clone, Copy, Debug, PartialEq, Eq)]
pub enum End {
    /// Each of its ins gave its Eos.
    Eos,
    /// An Abort was taken, or the unit was told to abort.
    Abort,
    /// A call of it was refused memory.
    Memory,
}
