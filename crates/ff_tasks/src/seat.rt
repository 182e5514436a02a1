// The master's ends of one worker's rings.
ghost use Rattle.std.specs.Prelude.{◌≡◌, ◌<◌, false, length, OnOk};
ghost use Rattle.ff_rec.specs.Streams.{IsOpen, items};
ghost use Rattle.ff_ring.specs.Ends.{got_of, put_of, read_ring, written_ring};
ghost use Rattle.ff_loop.specs.Masters.{IsKept};
ghost use Rattle.ff_tasks.specs.Seats.{Outlives, TakesOne};
ghost use Rattle.ff_tasks.specs.Serving.{ServesAt};

use ff_loop::{Master, Scheduler};
use ff_port::{Inbox, Outbox, Put};
use ff_rec::{Msg, NoMemory};
use ff_ring::{RingIn, RingOut};
use std::marker::Model;

/// Where the master gives tasks to one worker and takes its answers.
#[derive(Drop)]
pub(crate) struct Seat<T, A> {
    tasks: RingOut<T>,
    answers: RingIn<A>,
    // Whether the worker was told the end, and whether its last message came.
    told: bool,
    ended: bool,
}

impl<T, A> Model for Seat<T, A> {
    ghost use Rattle.std.specs.Prelude.{◌≡◌, false};
    ghost use Rattle.ff_rec.specs.Streams.{IsOpen};
    ghost use Rattle.ff_ring.specs.Ends.{got_of, put_of, read_ring, written_ring};
    ghost use Rattle.ff_tasks.specs.Seats.{SeatState};

    ghost Value = { SeatState T A };

    ghost view = { λ s. record {
      put = put_of s.tasks;
      got = got_of s.answers;
      told = s.told;
      link = record { tasks = written_ring s.tasks; answers = read_ring s.answers };
    } };

    ghost invariant = { λ s. s.told ≡ false → IsOpen (put_of s.tasks) };
}

impl<T: Drop, A: Drop> Seat<T, A> {
    /// A seat at these ends.
    pub(crate) fn new(tasks: RingOut<T>, answers: RingIn<A>) -> Seat<T, A>
        requires { IsOpen (put_of tasks) }
        ensures { result ≡ record {
          put = put_of tasks;
          got = got_of answers;
          told = false;
          link = record { tasks = written_ring tasks; answers = read_ring answers };
        } }
    {
        Seat {
            tasks,
            answers,
            told: false,
            ended: false,
        }
    }

    /// Gives the worker, whose number is `w`, the next ready task, if there is room for it. It
    /// answers whether it did.
    pub(crate) fn give<S: Scheduler<T, A>>(
        &mut self,
        master: &mut Master<T, A, S>,
        w: u32,
    ) -> Result<bool, NoMemory>
        requires kept { IsKept S.does master.old }
        requires worker { w < length master.old.held }
        requires open { self.old.told ≡ false }
        ensures serves { OnOk result (ServesAt S.does w master.old self.old master.new self.new) }
        ensures link { self.new.link ≡ self.old.link }
        ensures told { self.new.told ≡ self.old.told }
    {
        if !self.tasks.has_spare() {
            return Ok(false);
        }
        let Some(t) = master.give(w)? else {
            return Ok(false);
        };
        match self.tasks.try_put(Msg::Item(t)) {
            Put::Done => Ok(true),
            Put::Full(_) | Put::NoMemory(_) => unreachable!(),
        }
    }

    /// The next message of the worker.
    pub(crate) fn take(&mut self) -> Option<Msg<A>>
        ensures { TakesOne self.old result self.new }
    {
        let m = self.answers.try_take()?;
        if matches!(m, Msg::Eos | Msg::Abort) {
            self.ended = true;
        }
        Some(m)
    }

    /// Hands over the tasks that wait.
    pub(crate) fn hand_over(&mut self)
        ensures { self.new ≡ self.old }
    {
        self.tasks.flush();
    }

    /// Tells the worker the end, and hands it over. It answers whether that is done.
    pub(crate) fn close(&mut self) -> bool
        ensures { Outlives self.old self.new }
    {
        self.told = put_end(&mut self.tasks, self.told);
        let handed = self.tasks.flush();
        self.told & handed
    }

    /// Takes what has come and drops it. It answers whether the worker has ended.
    pub(crate) fn drop_answers(&mut self) -> bool
        ensures { Outlives self.old self.new }
    {
        for _ in 0..MOST_AT_ONCE {
            if self.take().is_none() {
                break;
            }
        }
        self.ended
    }

    /// Takes it apart: its two ends.
    pub(crate) fn into_ends(self) -> (RingOut<T>, RingIn<A>)
        ensures put { put_of result.0 ≡ self.put }
        ensures got { got_of result.1 ≡ self.got }
        ensures tasks { written_ring result.0 ≡ self.link.tasks }
        ensures answers { read_ring result.1 ≡ self.link.answers }
    {
        let Seat { tasks, answers, .. } = self;
        (tasks, answers)
    }
}

/// How many messages are taken at once from one worker, before it is looked at the others.
pub(crate) const MOST_AT_ONCE: u32 = 1024;

// Puts Eos, where it isn't there already, and answers whether it is.
fn put_end<T: Drop>(out: &mut RingOut<T>, told: bool) -> bool
    requires { told ≡ false → IsOpen (put_of out.old) }
    ensures link { written_ring out.new ≡ written_ring out.old }
    ensures items { items (put_of out.new) ≡ items (put_of out.old) }
    ensures open { result ≡ false → IsOpen (put_of out.new) }
{
    if told {
        return true;
    }
    match out.try_put(Msg::Eos) {
        Put::Done => true,
        Put::Full(_) => false,
        Put::NoMemory(_) => false,
    }
}
