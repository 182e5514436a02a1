// What becomes of a record that isn't rejected.
ghost use Rattle.std.specs.Prelude.{◌≡◌, ◌≤◌, [], ◌∷◌, length, IfOk, OnOk};
ghost use Rattle.ff_node.specs.Sends.{add};
ghost use Rattle.ff_ops.specs.Fates.{settled};
ghost use Rattle.ff_ops.specs.NumberOps.{sent_by};
ghost use Rattle.ff_ops.specs.Rows.{with_number};

use crate::Fate;
use ff_node::Sends;
use ff_rec::{Kept, NoMemory, Record};

/// It is decided before the record is changed, since a rejected record is rejected as it came.
#[derive(Clone, Copy, Debug, PartialEq, Eq)]
pub(crate) enum Answer {
    /// Nothing is sent.
    Nothing,
    /// The record is sent as it came.
    Same,
    /// The field becomes this number.
    Becomes(i64),
    /// The record is sent twice, with each of these numbers in the field.
    Halves(i64, i64),
}

impl Answer {
    /// Sends the first of two records, and makes the record the one that is sent behind it.
    pub(super) fn make(
        self,
        field: usize,
        r: &mut Record,
        out: &mut Sends,
    ) -> Result<Fate, NoMemory>
        requires low { 1 ≤ field }
        requires high { field ≤ length r.old }
        ensures { IfOk result (λ fate. settled fate out.new r.new
            ≡ add out.old (sent_by self field r.old) []) }
    {
        match self {
            Answer::Nothing => return Ok(Fate::Dropped),
            Answer::Same => return Ok(Fate::Sent),
            Answer::Becomes(n) => r.set_number(field, n)?,
            Answer::Halves(half, rest) => {
                send_copy(r, field, half, out)?;
                r.set_number(field, rest)?;
            }
        }
        Ok(Fate::Sent)
    }
}

// Sends a copy of the record with a number in the field.
fn send_copy(r: &Record, field: usize, n: i64, out: &mut Sends) -> Result<(), NoMemory>
    requires low { 1 ≤ field }
    requires high { field ≤ length r.now }
    ensures { OnOk result (out.new ≡ add out.old (with_number field n r.now ∷ []) []) }
{
    let mut first = r.copy()?;
    first.set_number(field, n)?;
    out.send(first)
}
