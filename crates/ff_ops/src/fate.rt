// What becomes of a record that an operation takes.
ghost use Rattle.std.specs.Prelude.{◌≡◌, OnOk};
ghost use Rattle.ff_ops.specs.Fates.{settled, fate_of};

use ff_node::Sends;
use ff_rec::{NoMemory, Record};

/// What becomes of a record once an operation has looked at it and, where it does that, changed it. It is moved only then: a
/// move costs as much as many an operation.
#[derive(Clone, Copy, Debug, PartialEq, Eq)]
pub(crate) enum Fate {
    /// It is sent as it is now.
    Sent,
    /// It is let go.
    Dropped,
    /// It is rejected, as it came.
    Rejected,
}

impl Fate {
    /// Of a record that is sent where it passes, and rejected where that can't be told.
    pub(crate) fn of(passes: Option<bool>) -> Fate
        ensures { result ≡ fate_of passes }
    {
        match passes {
            Some(true) => Fate::Sent,
            Some(false) => Fate::Dropped,
            None => Fate::Rejected,
        }
    }

    /// Sends the record, lets it go or rejects it. Always inline: a record that is handed on through memory is moved once more.
    #[inline(always)]
    pub(crate) fn settle(self, r: Record, out: &mut Sends) -> Result<(), NoMemory>
        ensures { OnOk result (out.new ≡ settled self out.old r) }
    {
        match self {
            Fate::Sent => out.send(r),
            Fate::Dropped => Ok(()),
            Fate::Rejected => out.reject(r),
        }
    }
}
