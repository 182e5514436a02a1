// How a unit is stepped in a thread of its own.
ghost use Rattle.std.specs.Prelude.{◌≡◌, ◌↔◌, true, false, IsTrue, IsSome, IfSome};
ghost use Rattle.ff_ring.specs.Pauses.{hands_next, has_napped, lies_behind, lies_down, naps_behind, naps_left_of, naps_of, napped_behind};
ghost use Rattle.ff_unit.specs.Units.{Ran};

use ff_port::{Ports, Step};
use ff_rec::Record;
use ff_ring::Pause;
use ff_unit::Threaded;
use std::sync::Wait;

/// Steps the unit until it has ended.
pub(crate) fn run_unit<U: Threaded, P: Ports<Record>, R: Wait>(
    unit: &mut U,
    ports: &mut P,
    pause: &mut Pause,
    rt: &R,
)
    requires { Ran U.does unit.old (P.gots ports.old) (P.puts ports.old) }
    ensures done { U.does.done unit.new ≡ true }
    ensures ran { Ran U.does unit.new (P.gots ports.new) (P.puts ports.new) }
    ensures start { U.does.opening unit.new ≡ U.does.opening unit.old }
    ensures taken { U.does.taken unit.new ≡ U.does.taken unit.old }
    ensures told { U.does.told unit.new ≡ U.does.told unit.old }
    ensures link { P.link ports.new ≡ P.link ports.old }
{
    let mut moved = false;
    for _ in rt.forever() {
        match unit.advance(ports) {
            Step::Moved => {
                // Only the first answer behind a pause that tells of a move has anything to reset.
                if !moved {
                    pause.reset();
                }
                moved = true;
            }
            Step::Waits => {
                wait(moved, ports, pause, rt);
                moved = false;
            }
            Step::Ended(_) => {
                // The caller may wait until all units rest.
                pause.end();
                return;
            }
        }
    }
}

// Waits for the other ends. Where the unit moved since the last time, it hands over what waits, tells of what it took, and tries again
// at once: a reader may wait for just that, and so for its answer this unit. One that naps keeps what waits, behind four naps at most. Each unit hands over
// before its thread parks. The answer is whether nothing is left then, which only a flush can tell.
fn wait<P: Ports<Record>, R: Wait>(
    moved: bool,
    ports: &mut P,
    pause: &mut Pause,
    rt: &R,
) -> Option<bool>
    ensures gots { P.gots ports.new ≡ P.gots ports.old }
    ensures puts { P.puts ports.new ≡ P.puts ports.old }
    ensures link { P.link ports.new ≡ P.link ports.old }
    ensures moved { moved ≡ true → naps_of pause.old ≡ false → IsSome result }
    ensures lies { hands_next pause.old ≡ true → IsSome result }
    ensures rests { moved ≡ false → (lies_down pause.new ≡ lies_behind pause.old)
        × (naps_left_of pause.new ≡ naps_behind pause.old) × (has_napped pause.new ≡ napped_behind pause.old) }
    ensures left { IfSome result (λ all. IsTrue all ↔ (P.waiting ports.new ≡ 0)) }
{
    if (moved && !pause.naps()) || pause.rest(rt) {
        return Some(ports.flush());
    }
    None
}
