// The two ends of a ring in one thread again.
ghost use Rattle.std.specs.Prelude.{◌≡◌, ◌≤◌, ◌↔◌, ◌++◌, [], IsTrue};
ghost use Rattle.ff_ring.specs.Ends.{put_of, held_of, got_of, there_of, written_ring, read_ring, hands_out, HasFill};

use crate::{RingIn, RingOut};

/// Makes the reader know of all that was handed over. It answers whether nothing is left inside.
pub fn settle<T>(out: &mut RingOut<T>, inn: &mut RingIn<T>) -> bool
    requires pair { read_ring inn.old ≡ written_ring out.old }
    ensures writer { written_ring out.new ≡ written_ring out.old }
    ensures reader { read_ring inn.new ≡ read_ring inn.old }
    ensures put { put_of out.new ≡ put_of out.old }
    ensures held { held_of out.new ≡ held_of out.old }
    ensures hands { hands_out out.old ≤ hands_out out.new }
    ensures fill { HasFill out.old → HasFill out.new }
    ensures got { got_of inn.new ≡ got_of inn.old }
    ensures law { got_of inn.new ++ there_of inn.new ++ held_of out.new ≡ put_of out.new }
    ensures none { IsTrue result ↔ ((there_of inn.new ≡ []) × (held_of out.new ≡ [])) }
{
    inn.inlet.end.slots_beside(&mut out.outlet.end);
    inn.is_drained() && out.bundle.is_empty()
}
