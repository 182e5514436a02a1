// What no clause says: that memory is there, and that the definitions mean these streams. The ports find nothing, and no room, at
// random, so that each case is tried under many orders of what comes and goes.
ghost use Rattle.ff_unit.specs.Units.{Ran};

mod deals;
mod keys;
mod merges;

use ff_port::{End, Ports, Step};
use ff_rec::Record;
use ff_unit::Unit;

// How many orders each case is tried under.
const ORDERS: u32 = 200;

// Steps until the unit ends.
fn run<U: Unit, P: Ports<Record>>(unit: &mut U, ports: &mut P) -> Option<End>
    requires { Ran U.does unit.old (P.gots ports.old) (P.puts ports.old) }
{
    for _ in 0..10_000 {
        if let Step::Ended(end) = unit.step(ports) {
            return Some(end);
        }
    }
    None
}
