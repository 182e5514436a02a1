// A worker's job.
ghost use Rattle.std.specs.Prelude.{◌≡◌, false, []};
ghost use Rattle.ff_ring.specs.Ends.{got_of, put_of, read_ring, written_ring};
ghost use Rattle.ff_tasks.specs.Jobs.{handled};

use crate::Handler;
use crate::answering::answer_to_end;
use crate::waiting::put_last;
use ff_rec::Msg;
use ff_ring::{Pause, RingIn, RingOut};
use ff_spawn::Job;
use std::marker::Model;
use std::sync::Wait;

/// A handler between the ring of its tasks and that of its answers, up to the end that comes over
/// the first. At want of memory it puts Abort, and drops what still comes.
#[derive(Drop)]
pub struct LoopJob<T, A, H: Handler<T, A>, R> {
    handler: H,
    tasks: RingIn<T>,
    answers: RingOut<A>,
    answered: u64,
    // Whether it has put its last message.
    ended: bool,
    pause: Pause,
    // The right to wait.
    rt: R,
}

impl<T, A, H: Handler<T, A>, R> Model for LoopJob<T, A, H, R> {
    ghost use Rattle.std.specs.Prelude.{◌≡◌, false, length};
    ghost use Rattle.ff_rec.specs.Counts.{counted};
    ghost use Rattle.ff_rec.specs.Streams.{items};
    ghost use Rattle.ff_ring.specs.Ends.{got_of, put_of, read_ring, written_ring};
    ghost use Rattle.ff_tasks.specs.Jobs.{JobState, HasKept};

    ghost Value = { JobState T A H };

    ghost view = { λ j. record {
      handler = j.handler;
      got = got_of j.tasks;
      put = put_of j.answers;
      link = record { tasks = read_ring j.tasks; answers = written_ring j.answers };
      ended = j.ended;
    } };

    ghost invariant = { λ j. (j.answered ≡ counted (length (items (put_of j.answers))))
        × (j.ended ≡ false → HasKept (H.answers j.handler) (got_of j.tasks) (put_of j.answers)) };
}

impl<T: Drop, A: Drop, H: Handler<T, A>, R: Wait + Drop> LoopJob<T, A, H, R> {
    /// A job that did nothing yet, between ends at which nothing passed.
    pub(crate) fn new(
        handler: H,
        tasks: RingIn<T>,
        answers: RingOut<A>,
        pause: Pause,
        rt: R,
    ) -> LoopJob<T, A, H, R>
        requires got { got_of tasks ≡ [] }
        requires put { put_of answers ≡ [] }
        ensures { result ≡ record {
          handler = handler;
          got = [];
          put = [];
          link = record { tasks = read_ring tasks; answers = written_ring answers };
          ended = false;
        } }
    {
        LoopJob {
            handler,
            tasks,
            answers,
            answered: 0,
            ended: false,
            pause,
            rt,
        }
    }

    /// How many answers it put, at most 2^64 - 1.
    pub fn answered(&self) -> u64
        ensures { result ≡ handled self.now }
    {
        self.answered
    }

    /// Ends it before its first task: Abort is put.
    pub(crate) fn abort(&mut self)
        requires { self.old.ended ≡ false }
    {
        self.ended = true;
        put_last(&mut self.answers, Msg::Abort, &mut self.pause, &self.rt);
    }

    /// Takes it apart: its two ends.
    pub(crate) fn into_ends(self) -> (RingIn<T>, RingOut<A>)
        ensures got { got_of result.0 ≡ self.got }
        ensures put { put_of result.1 ≡ self.put }
        ensures tasks { read_ring result.0 ≡ self.link.tasks }
        ensures answers { written_ring result.1 ≡ self.link.answers }
    {
        let LoopJob { tasks, answers, .. } = self;
        (tasks, answers)
    }
}

impl<T: Drop, A: Drop, H: Handler<T, A>, R: Wait + Drop> Job for LoopJob<T, A, H, R> {
    ghost use Rattle.ff_tasks.specs.Jobs.{HasAnswered, handled};

    ghost done = { HasAnswered H.answers };

    ghost amount = { λ job. handled job };

    fn run(&mut self) {
        if self.ended {
            return;
        }
        let LoopJob {
            handler,
            tasks,
            answers,
            answered,
            ended,
            pause,
            rt,
        } = self;
        answer_to_end(handler, tasks, answers, answered, pause, rt);
        *ended = true;
    }

    fn work(&self) -> u64 {
        self.answered
    }
}
