// How a worker answers tasks.
ghost use Rattle.std.specs.Prelude.{◌≡◌, ◌∷◌, ◌++◌, [], length};
ghost use Rattle.ff_rec.specs.declared.msg.Msg.TheVariants.{Abort};
ghost use Rattle.ff_rec.specs.Counts.{counted};
ghost use Rattle.ff_rec.specs.Streams.{IsOpen, items};
ghost use Rattle.ff_ring.specs.Ends.{got_of, put_of, read_ring, written_ring};
ghost use Rattle.ff_tasks.specs.Jobs.{Begins, HasEnded, HasKept, HasStopped};

use crate::Handler;
use crate::waiting::{put, put_last, take};
use ff_port::End;
use ff_rec::Msg;
use ff_ring::{Pause, RingIn, RingOut};
use std::sync::Wait;

/// Answers tasks up to the end, and tells the master that.
pub(crate) fn answer_to_end<T: Drop, A: Drop, H: Handler<T, A>, R: Wait>(
    handler: &mut H,
    tasks: &mut RingIn<T>,
    answers: &mut RingOut<A>,
    answered: &mut u64,
    pause: &mut Pause,
    rt: &R,
)
    requires kept { HasKept (H.answers handler.old) (got_of tasks.old) (put_of answers.old) }
    requires count { answered.old ≡ counted (length (items (put_of answers.old))) }
    ensures same { H.answers handler.new ≡ H.answers handler.old }
    ensures reads { read_ring tasks.new ≡ read_ring tasks.old }
    ensures writes { written_ring answers.new ≡ written_ring answers.old }
    ensures count { answered.new ≡ counted (length (items (put_of answers.new))) }
    ensures ended { HasEnded (H.answers handler.old) (got_of tasks.new) (put_of answers.new) }
{
    let end = answer_all(handler, tasks, answers, answered, pause, rt);
    if let End::Eos = end {
        put_last(answers, Msg::Eos, pause, rt);
        return;
    }
    cut_off(end, tasks, answers, pause, rt);
}

// Answers tasks, up to the end or to want of memory.
fn answer_all<T: Drop, A: Drop, H: Handler<T, A>, R: Wait>(
    handler: &mut H,
    tasks: &mut RingIn<T>,
    answers: &mut RingOut<A>,
    answered: &mut u64,
    pause: &mut Pause,
    rt: &R,
) -> End
    requires kept { HasKept (H.answers handler.old) (got_of tasks.old) (put_of answers.old) }
    requires count { answered.old ≡ counted (length (items (put_of answers.old))) }
    ensures same { H.answers handler.new ≡ H.answers handler.old }
    ensures reads { read_ring tasks.new ≡ read_ring tasks.old }
    ensures writes { written_ring answers.new ≡ written_ring answers.old }
    ensures open { IsOpen (put_of answers.new) }
    ensures count { answered.new ≡ counted (length (items (put_of answers.new))) }
    ensures stopped { HasStopped (H.answers handler.old) result (got_of tasks.new)
        (put_of answers.new) }
{
    for _ in rt.forever() {
        match take(tasks, answers, pause, rt) {
            Msg::Item(t) => match handler.answer(t) {
                Ok(a) => {
                    put(answers, Msg::Item(a), pause, rt);
                    *answered = answered.saturating_add(1);
                }
                Err(_) => return End::Memory,
            },
            Msg::Eos => return End::Eos,
            Msg::Abort => return End::Abort,
            Msg::Mark => {}
            Msg::Pick(_) => {}
        }
    }
    unreachable!()
}

// Tells the master that no more answers come.
fn cut_off<T: Drop, A, R: Wait>(
    end: End,
    tasks: &mut RingIn<T>,
    answers: &mut RingOut<A>,
    pause: &mut Pause,
    rt: &R,
)
    requires { IsOpen (put_of answers.old) }
    ensures got { Begins (got_of tasks.old) (got_of tasks.new) }
    ensures put { put_of answers.new ≡ put_of answers.old ++ Abort ∷ [] }
    ensures reads { read_ring tasks.new ≡ read_ring tasks.old }
    ensures writes { written_ring answers.new ≡ written_ring answers.old }
{
    put_last(answers, Msg::Abort, pause, rt);
    let End::Memory = end else {
        return;
    };
    drop_rest(tasks, answers, pause, rt);
}

// Drops the tasks that still come, up to the end: the master may wait for room for it.
fn drop_rest<T: Drop, A, R: Wait>(
    tasks: &mut RingIn<T>,
    answers: &mut RingOut<A>,
    pause: &mut Pause,
    rt: &R,
)
    ensures got { Begins (got_of tasks.old) (got_of tasks.new) }
    ensures reads { read_ring tasks.new ≡ read_ring tasks.old }
    ensures put { put_of answers.new ≡ put_of answers.old }
    ensures writes { written_ring answers.new ≡ written_ring answers.old }
{
    for _ in rt.forever() {
        match take(tasks, answers, pause, rt) {
            Msg::Eos | Msg::Abort => return,
            Msg::Item(_) | Msg::Mark | Msg::Pick(_) => {}
        }
    }
    unreachable!()
}
