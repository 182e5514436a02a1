// What goes over a channel from one unit to the next.
ghost use Rattle.std.specs.Prelude.{◌≡◌, IfOk};

use crate::{Kept, NoMemory};

/// A message on a channel.
#[derive(Debug, Drop)]
pub enum Msg<T> {
    /// A record, or another piece of work.
    Item(T),
    /// The end of the group of records that stand in one record's place.
    Mark,
    /// The worker with this number has the next place.
    Pick(u32),
    /// The end of the stream. It is the last message.
    Eos,
    /// The stream was cut off. It is the last message.
    Abort,
}

impl<T: Kept> Kept for Msg<T> {
    fn copy(&self) -> Result<Msg<T>, NoMemory> {
        Ok(match self {
            Msg::Item(x) => Msg::Item(x.copy()?),
            Msg::Mark => Msg::Mark,
            Msg::Pick(worker) => Msg::Pick(*worker),
            Msg::Eos => Msg::Eos,
            Msg::Abort => Msg::Abort,
        })
    }
}
