// Taking from any in that still gives.
ghost use Rattle.std.specs.Prelude.{◌≡◌, ◌<◌, ◌≤◌, length, IfSome};
ghost use Rattle.ff_unit.specs.Takes.{TakesAny, TakesBetween, PassesDry};
ghost use Rattle.ff_unit.specs.Units.{known};

use crate::Flags;
use ff_port::Ports;
use ff_rec::{Msg, Record};

/// Takes from the first in that gives something, of those that still give, from in `next` on round to the one before it.
#[inline(always)]
pub fn take_any<P: Ports<Record>>(
    live: &Flags,
    next: usize,
    ports: &mut P,
) -> Option<(usize, Msg<Record>)>
    requires { length live.now ≤ length (P.gots ports.old) }
    ensures takes { TakesAny live.now (P.gots ports.old)
        (known (P.knowns ports.old) (P.rooms ports.old) (P.waiting ports.old)) result
        (P.gots ports.new)
        (known (P.knowns ports.new) (P.rooms ports.new) (P.waiting ports.new)) }
    ensures round { PassesDry next live.now (P.knowns ports.old) result }
    ensures within { IfSome result (λ taken. taken.0 < 65) }
    ensures puts { P.puts ports.new ≡ P.puts ports.old }
    ensures rooms { P.rooms ports.new ≡ P.rooms ports.old }
    ensures waiting { P.waiting ports.new ≡ P.waiting ports.old }
    ensures link { P.link ports.new ≡ P.link ports.old }
{
    let n = live.len();
    let from = next.min(n);
    match take_between(live, from, n, ports) {
        Some(taken) => Some(taken),
        None => take_between(live, 0, from, ports),
    }
}

// Looks only at ins from `low` on and below `high`.
#[inline(always)]
fn take_between<P: Ports<Record>>(
    live: &Flags,
    low: usize,
    high: usize,
    ports: &mut P,
) -> Option<(usize, Msg<Record>)>
    requires order { low ≤ high }
    requires within { high ≤ length (P.gots ports.old) }
    ensures takes { TakesBetween low high live.now (P.gots ports.old) (P.knowns ports.old)
        result (P.gots ports.new) (P.knowns ports.new) }
    ensures puts { P.puts ports.new ≡ P.puts ports.old }
    ensures rooms { P.rooms ports.new ≡ P.rooms ports.old }
    ensures waiting { P.waiting ports.new ≡ P.waiting ports.old }
    ensures link { P.link ports.new ≡ P.link ports.old }
{
    for k in low..high {
        if live.is_live(k) {
            if let Some(m) = ports.try_take(k) {
                return Some((k, m));
            }
        }
    }
    None
}
