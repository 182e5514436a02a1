// How a worker's thread waits at one of its rings, and hands over what waits at the other before it
// rests.
ghost use Rattle.std.specs.Prelude.{◌≡◌, ◌∷◌, ◌++◌, []};
ghost use Rattle.ff_rec.specs.Streams.{IsOpen};
ghost use Rattle.ff_ring.specs.Ends.{got_of, put_of, waiting_of, read_ring, written_ring};

use ff_port::{Inbox, Outbox, Put};
use ff_rec::Msg;
use ff_ring::{Pause, RingIn, RingOut};
use std::sync::Wait;

/// The next message. What waits at the out is handed over before the thread rests: the master may
/// wait for just that.
pub(crate) fn take<T, A, R: Wait>(
    inn: &mut RingIn<T>,
    out: &mut RingOut<A>,
    pause: &mut Pause,
    rt: &R,
) -> Msg<T>
    ensures got { got_of inn.new ≡ got_of inn.old ++ result ∷ [] }
    ensures reads { read_ring inn.new ≡ read_ring inn.old }
    ensures put { put_of out.new ≡ put_of out.old }
    ensures writes { written_ring out.new ≡ written_ring out.old }
{
    let mut waited = false;
    for _ in rt.forever() {
        if let Some(m) = inn.try_take() {
            if waited {
                pause.reset();
            }
            return m;
        }
        if !waited || pause.rest(rt) {
            out.flush();
        }
        waited = true;
    }
    unreachable!()
}

/// Puts a message, once there is room.
pub(crate) fn put<A, R: Wait>(out: &mut RingOut<A>, m: Msg<A>, pause: &mut Pause, rt: &R)
    requires { IsOpen (put_of out.old) }
    ensures put { put_of out.new ≡ put_of out.old ++ m ∷ [] }
    ensures writes { written_ring out.new ≡ written_ring out.old }
{
    let mut m = m;
    for _ in rt.forever() {
        match out.try_put(m) {
            Put::Done => return,
            Put::Full(back) | Put::NoMemory(back) => m = back,
        }
        pause.rest(rt);
    }
    unreachable!()
}

/// Puts the last message, and hands over all that waits.
pub(crate) fn put_last<A, R: Wait>(out: &mut RingOut<A>, m: Msg<A>, pause: &mut Pause, rt: &R)
    requires { IsOpen (put_of out.old) }
    ensures put { put_of out.new ≡ put_of out.old ++ m ∷ [] }
    ensures writes { written_ring out.new ≡ written_ring out.old }
    ensures all { waiting_of out.new ≡ 0 }
{
    put(out, m, pause, rt);
    hand_over(out, pause, rt);
}

// Hands over all that waits.
fn hand_over<A, R: Wait>(out: &mut RingOut<A>, pause: &mut Pause, rt: &R)
    ensures put { put_of out.new ≡ put_of out.old }
    ensures writes { written_ring out.new ≡ written_ring out.old }
    ensures all { waiting_of out.new ≡ 0 }
{
    for _ in rt.forever() {
        if out.flush() {
            return;
        }
        pause.rest(rt);
    }
    unreachable!()
}
