// What the units of a core rejected.
ghost use Rattle.std.specs.Prelude.{◌≡◌, sum_by};
ghost use Rattle.ff_node.specs.Sends.{counted};
ghost use Rattle.ff_steps.specs.Rejects.{Hands};

use ff_rec::Record;
use ff_unit::Unit;

/// Their rejects together, up to 2^64 - 1.
pub(crate) fn rejected<U: Unit>(units: &[U]) -> u64
    ensures { result ≡ counted (sum_by U.does.rejects units.now) }
{
    let mut count = 0u64;
    for u in units {
        count = count.saturating_add(u.rejected());
    }
    count
}

/// The first reject of the first unit that holds one, which is taken out.
pub(crate) fn take_reject<U: Unit>(units: &mut Vec<U>) -> Option<Record>
    ensures { Hands U.does units.old.items result units.new.items }
{
    for p in 0..units.len() {
        if let Some(r) = units[p].take_reject() {
            return Some(r);
        }
    }
    None
}
