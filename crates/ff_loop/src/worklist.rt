// The tasks of a wrap.
ghost use Rattle.std.specs.Prelude.{◌≡◌, ◌↔◌, IsTrue, [], true};
ghost use Rattle.ff_loop.specs.Worklists.{opened_work, IsRight, IsOverLimit, TakesResult};

use crate::{Events, Scheduler};
use ff_net::{Tasks, Test, sort};
use ff_node::{Records, Sends};
use ff_port::Past;
use ff_rec::{NoMemory, Record};
use std::alloc::Global;
use std::marker::Model;

/// The scheduler of a wrap. A record that is sent is a task where it meets the test, and else a result. Past the limit of
/// tasks it drops what it holds and gives out nothing more.
#[derive(Drop)]
pub struct Worklist {
    test: Test,
    limit: u64,
    tasks: Tasks,
    // The number of the next task that is given.
    next_id: u64,
    // How many tasks are out.
    out: u64,
    over: bool,
    events: Events<Record, Sends>,
    taken: Past<Record>,
    alloc: Global,
}

impl Model for Worklist {
    ghost use Rattle.ff_loop.specs.Worklists.{WorkState};

    ghost Value = { WorkState };

    ghost view = { λ w. record {
      test = w.test;
      limit = w.limit;
      next = w.tasks.next;
      room = w.tasks.room;
      results = w.tasks.results;
      next_id = w.next_id;
      out = w.out;
      over = w.over;
      events = w.events;
      taken = w.taken;
    } };
}

impl Worklist {
    /// No tasks yet. There may be at most `limit`, of those that are fed in and those that are spawned.
    pub fn new(alloc: Global, test: Test, limit: u64) -> Worklist
        ensures opened { result ≡ opened_work test limit }
        ensures right { IsRight result }
    {
        Worklist {
            test,
            limit,
            tasks: Tasks {
                next: Records::new(alloc),
                room: limit,
                results: Records::new(alloc),
            },
            next_id: 0,
            out: 0,
            over: false,
            events: Events::new(),
            taken: Past::new(),
            alloc,
        }
    }

    /// Whether there are more tasks than the limit allows.
    pub fn over(&self) -> bool
        requires { IsRight self.now }
        ensures { IsTrue result ↔ IsOverLimit self.now }
    {
        self.over
    }

    /// The first result that is held, which is taken out.
    pub fn take_result(&mut self) -> Option<Record>
        requires { IsRight self.old }
        ensures result { TakesResult self.old result self.new }
        ensures right { IsRight self.new }
    {
        let r = self.tasks.results.take_first()?;
        self.taken.note(&r);
        Some(r)
    }

    // There is one task more than the limit allows: what waits is dropped.
    fn pass_limit(&mut self)
        ensures { self.new ≡ record self.old { next = []; room = 0; results = []; over = true } }
    {
        self.tasks = Tasks {
            next: Records::new(self.alloc),
            room: 0,
            results: Records::new(self.alloc),
        };
        self.over = true;
    }
}

impl Scheduler<Record, Sends> for Worklist {
    ghost use Rattle.ff_loop.specs.Worklists.{work_does};
    ghost use Rattle.ff_loop.specs.WorkLaws.{IsScheduling-work};

    ghost does = { work_does };

    fn offer(&mut self, t: Record) -> Result<(), NoMemory> {
        self.events.offered(&t);
        if self.tasks.room == 0 {
            self.pass_limit();
            return Ok(());
        }
        self.tasks.room -= 1;
        self.tasks.next.push(t)
    }

    fn next(&mut self) -> Option<(u64, Record)> {
        let t = self.tasks.next.take_first()?;
        let id = self.next_id;
        self.next_id += 1;
        self.out += 1;
        self.events.given(id, &t);
        Some((id, t))
    }

    fn back(&mut self, id: u64, a: Sends) -> Result<(), NoMemory> {
        self.events.back(id, &a);
        self.out -= 1;
        if self.over {
            return Ok(());
        }
        let mut answer = a;
        if sort(&self.test, &mut self.tasks, &mut answer)? {
            return Ok(());
        }
        self.pass_limit();
        Ok(())
    }

    fn idle(&self) -> bool {
        self.out == 0 && self.tasks.next.is_empty()
    }

    ghost sound = { IsScheduling-work };
}
