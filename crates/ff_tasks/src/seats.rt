// The seats of all workers.
ghost use Rattle.std.specs.Prelude.{◌≡◌};
ghost use Rattle.ff_tasks.specs.Seats.{AllOutlive};

use crate::seat::Seat;
use ff_ring::Pause;
use std::sync::Wait;

/// Goes on at once where the master has just done something, and else waits for the workers. Where it
/// did something before that, it hands over what waits first, and they may have answered by the next
/// look; and it hands over before it rests.
pub(crate) fn pace<T: Drop, A: Drop, R: Wait>(
    moves: bool,
    moved: bool,
    seats: &mut Vec<Seat<T, A>>,
    pause: &mut Pause,
    rt: &R,
)
    ensures { seats.new.items ≡ seats.old.items }
{
    if moves {
        if !moved {
            pause.reset();
        }
        return;
    }
    if moved || pause.rest(rt) {
        hand_over_all(seats);
    }
}

fn hand_over_all<T: Drop, A: Drop>(seats: &mut Vec<Seat<T, A>>)
    ensures { seats.new.items ≡ seats.old.items }
{
    for seat in seats.iter_mut() {
        seat.hand_over();
    }
}

/// Tells all workers the end and drops what still comes, until each has ended.
pub(crate) fn close_all<T: Drop, A: Drop, R: Wait>(
    seats: &mut Vec<Seat<T, A>>,
    pause: &mut Pause,
    rt: &R,
)
    ensures { AllOutlive seats.old.items seats.new.items }
{
    for _ in rt.forever() {
        if close_each(seats) {
            return;
        }
        pause.rest(rt);
    }
    unreachable!()
}

// Tells each worker the end, as far as there is room, and drops what has come. It answers whether all
// have ended.
fn close_each<T: Drop, A: Drop>(seats: &mut Vec<Seat<T, A>>) -> bool
    ensures { AllOutlive seats.old.items seats.new.items }
{
    let mut all = true;
    for seat in seats.iter_mut() {
        let told = seat.close();
        let ended = seat.drop_answers();
        all = all && told && ended;
    }
    all
}
