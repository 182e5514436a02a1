// The jobs of a network, each in a thread of its own.
ghost use Rattle.std.specs.Prelude.{◌≡◌, ◌≤◌, length, map, vec_len};
ghost use Rattle.ff_ring.specs.Ends.{put_of, got_of, read_ring, written_ring};
ghost use Rattle.ff_engine.specs.Crews.{IsJoined};
ghost use Rattle.ff_engine.specs.Lines.{IsWired, Linked};

use crate::NetJob;
use crate::board::Board;
use crate::settling::settle_jobs;
use ff_rec::Record;
use ff_ring::{RingIn, RingOut};
use ff_spawn::{RunningJobs, Spawner};
use ff_unit::Threaded;
use std::marker::Model;
use std::sync::Wait;

/// Jobs that run, over rings. Contracts see them as they were when they were started. `join` alone spends it.
pub(crate) struct Crew<U: Threaded, R: Wait + Drop> {
    running: RunningJobs<NetJob<U, R>>,
    // Room for the jobs, once they have ended, and for their units.
    jobs: Vec<NetJob<U, R>>,
    units: Vec<U>,
    // The places of their ends.
    board: Board,
}

impl<U: Threaded, R: Wait + Drop> Model for Crew<U, R> {
    ghost use Rattle.std.specs.Prelude.{List, [], ◌≤◌, ◌≡◌, length, map, vec_capacity};
    ghost use Rattle.ff_engine.specs.Jobs.{JobState};
    ghost use Rattle.ff_engine.specs.Lines.{IsWired};

    ghost Value = { List (JobState U) };

    ghost view = { λ c. c.running.jobs };

    ghost invariant = { λ c. (c.jobs.items ≡ []) × (length c.running.jobs ≤ vec_capacity c.jobs)
        × (c.units.items ≡ []) × (length c.running.jobs ≤ vec_capacity c.units)
        × IsWired (map (λ job. job.row) c.running.jobs) (length c.board.ins.items)
        × (length c.board.outs.items ≡ length c.board.ins.items) };
}

impl<U: Threaded + Send + 'static, R: Wait + Drop + Send + 'static> Crew<U, R> {
    ghost use Rattle.std.specs.Prelude.{[], vec_capacity};

    /// The jobs that run, with room for them, for their units and for their ends.
    pub(crate) fn new(
        running: RunningJobs<NetJob<U, R>>,
        jobs: Vec<NetJob<U, R>>,
        units: Vec<U>,
        board: Board,
    ) -> Crew<U, R>
        requires jobs { (jobs.items ≡ []) × (length running.jobs ≤ vec_capacity jobs) }
        requires units { (units.items ≡ []) × (length running.jobs ≤ vec_capacity units) }
        requires wired { IsWired (map (λ job. job.row) running.jobs) (length board.ins.items) }
        requires places { length board.outs.items ≡ length board.ins.items }
        ensures { result ≡ running.jobs }
    {
        Crew {
            running,
            jobs,
            units,
            board,
        }
    }

    /// Waits until all have ended, and settles their rings. The answer is their units.
    pub(crate) fn join<S: Spawner<NetJob<U, R>>>(
        self,
        first: RingOut<Record>,
        last: RingIn<Record>,
        by: &mut S,
    ) -> Vec<U>
        requires linked { Linked (written_ring first) self (read_ring last) }
        ensures joined { IsJoined U.does (put_of first) self result.items (got_of last)
            (S.worked by.old) (S.worked by.new) }
        ensures refused { S.refused by.new ≡ S.refused by.old }
        ensures starts { S.starts by.new ≡ S.starts by.old }
        ensures worked { S.worked by.old ≤ S.worked by.new }
    {
        let Crew {
            running,
            jobs,
            units,
            board,
        } = self;
        let mut jobs = jobs;
        let mut units = units;
        running.finish_all(by, &mut jobs);
        settle_jobs(first, jobs, last, board, &mut units);
        units
    }
}
