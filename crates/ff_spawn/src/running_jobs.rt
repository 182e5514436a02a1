// Lists of jobs that run, each in a thread of its own.
ghost use Rattle.std.specs.Prelude.{◌≡◌, ◌+◌, ◌≤◌, ◌++◌, [], length, reverse, vec_len, vec_capacity, IfOk, OnOk};
ghost use Rattle.ff_spawn.specs.Counts.{count_more, denied_after};
ghost use Rattle.ff_spawn.specs.Lists.{FinishesAll};

use crate::{Denial, Job, Spawner, StartFault, Started};
use ff_rec::NoMemory;
use std::alloc::Global;
use std::marker::Model;

/// Jobs that were started. Contracts see them as they were then, in the order of the list that they come from, with the
/// room that there is. `finish_all` alone spends them.
pub struct RunningJobs<J: Job> {
    // The last of the jobs comes first.
    list: Vec<Started<J>>,
}

impl<J: Job> Model for RunningJobs<J> {
    ghost use Rattle.std.specs.Prelude.{reverse, vec_capacity};
    ghost use Rattle.ff_spawn.specs.Lists.{Crew};

    ghost Value = { Crew J };

    ghost view = { λ r. record { jobs = reverse r.list.items; room = vec_capacity r.list } };
}

impl<J: Job + Send + 'static> RunningJobs<J> {
    /// No job runs yet. With the room taken here, keeping what is started takes no memory.
    pub fn with_capacity(alloc: Global, room: usize) -> Result<RunningJobs<J>, NoMemory>
        ensures { IfOk result (λ running. running ≡ record { jobs = []; room = room }) }
    {
        Ok(RunningJobs {
            list: Vec::with_capacity(alloc, room)?,
        })
    }

    /// Starts the jobs, the last one first, up to the first that can't be started. This one and those before it stay in
    /// the list.
    pub fn start_all<S: Spawner<J>>(
        &mut self,
        alloc: Global,
        spawner: &mut S,
        jobs: &mut Vec<J>,
    ) -> Result<(), Denial>
        requires none { self.old.jobs ≡ [] }
        requires room { vec_len jobs.old ≤ self.old.room }
        ensures conserved { jobs.new.items ++ self.new.jobs ≡ jobs.old.items }
        ensures len { vec_len jobs.new + length self.new.jobs ≡ vec_len jobs.old }
        ensures all { OnOk result (jobs.new.items ≡ []) }
        ensures room { self.new.room ≡ self.old.room }
        ensures capacity { vec_capacity jobs.new ≡ vec_capacity jobs.old }
        ensures refused { S.refused spawner.new ≡ denied_after (S.refused spawner.old) result }
        ensures starts { S.starts spawner.new ≡ count_more (S.starts spawner.old) self.new.jobs }
        ensures worked { S.worked spawner.new ≡ S.worked spawner.old }
        ensures refused_stays { S.refused spawner.old ≤ S.refused spawner.new }
        ensures starts_stays { S.starts spawner.old ≤ S.starts spawner.new }
    {
        start_each(alloc, spawner, jobs, &mut self.list)
    }

    /// Waits until each thread has ended, and puts the jobs, as they are then, behind those that are in the list.
    pub fn finish_all<S: Spawner<J>>(self, spawner: &mut S, jobs: &mut Vec<J>)
        requires { vec_len jobs.old + length self.jobs ≤ vec_capacity jobs.old }
        ensures finishes { FinishesAll J.done J.amount self.jobs jobs.old.items jobs.new.items
            (S.worked spawner.old) (S.worked spawner.new) }
        ensures refused { S.refused spawner.new ≡ S.refused spawner.old }
        ensures starts { S.starts spawner.new ≡ S.starts spawner.old }
        ensures worked_stays { S.worked spawner.old ≤ S.worked spawner.new }
    {
        let RunningJobs { list } = self;
        finish_each(list, spawner, jobs);
    }
}

// Starts jobs from the end of one list and keeps them in the other.
fn start_each<J: Job + Send + 'static, S: Spawner<J>>(
    alloc: Global,
    spawner: &mut S,
    jobs: &mut Vec<J>,
    list: &mut Vec<Started<J>>,
) -> Result<(), Denial>
    requires none { reverse list.old.items ≡ [] }
    requires room { vec_len jobs.old ≤ vec_capacity list.old }
    ensures conserved { jobs.new.items ++ reverse list.new.items ≡ jobs.old.items }
    ensures len { vec_len jobs.new + vec_len list.new ≡ vec_len jobs.old }
    ensures all { OnOk result (jobs.new.items ≡ []) }
    ensures room { vec_capacity list.new ≡ vec_capacity list.old }
    ensures capacity { vec_capacity jobs.new ≡ vec_capacity jobs.old }
    ensures refused { S.refused spawner.new ≡ denied_after (S.refused spawner.old) result }
    ensures starts { S.starts spawner.new
        ≡ count_more (S.starts spawner.old) (reverse list.new.items) }
    ensures worked { S.worked spawner.new ≡ S.worked spawner.old }
    ensures refused_stays { S.refused spawner.old ≤ S.refused spawner.new }
    ensures starts_stays { S.starts spawner.old ≤ S.starts spawner.new }
{
    while let Some(job) = jobs.pop() {
        let (back, denial) = match spawner.start(alloc, job) {
            Ok(started) => {
                list.push_reserved(started);
                continue;
            }
            Err(StartFault::Refused(back)) => (back, Denial::Refused),
            Err(StartFault::NoMemory(back)) => (back, Denial::NoMemory),
        };
        jobs.push_reserved(back);
        return Err(denial);
    }
    Ok(())
}

// Finishes the jobs, the one that was started last first.
fn finish_each<J: Job + Send + 'static, S: Spawner<J>>(
    list: Vec<Started<J>>,
    spawner: &mut S,
    jobs: &mut Vec<J>,
)
    requires { vec_len jobs.old + vec_len list ≤ vec_capacity jobs.old }
    ensures finishes { FinishesAll J.done J.amount (reverse list.items) jobs.old.items
        jobs.new.items (S.worked spawner.old) (S.worked spawner.new) }
    ensures refused { S.refused spawner.new ≡ S.refused spawner.old }
    ensures starts { S.starts spawner.new ≡ S.starts spawner.old }
    ensures worked_stays { S.worked spawner.old ≤ S.worked spawner.new }
{
    let mut list = list;
    while let Some(started) = list.pop() {
        jobs.push_reserved(spawner.finish(started));
    }
    list.destroy_empty();
}
