// How the units of a network come into threads.
ghost use Rattle.std.specs.Prelude.{◌≡◌, ◌≢◌, ◌≤◌, ◌+◌, [], length, map, vec_len, vec_capacity, All, IfOk, OnOk};
ghost use Rattle.ff_net.specs.Tree.{tree_of};
ghost use Rattle.ff_spawn.specs.Counts.{count_more, denied_after};
ghost use Rattle.ff_engine.specs.Jobs.{IsFresh};
ghost use Rattle.ff_engine.specs.Lines.{IsWired};
ghost use Rattle.ff_engine.specs.RingSizes.{size_of};
ghost use Rattle.ff_engine.specs.Starts.{IsPrepared};
ghost use Rattle.ff_engine.specs.Seen.{caller_of};

use crate::bells::Bells;
use crate::caller::Caller;
use crate::crew::Crew;
use crate::laws::{plans_are_wired, plans_keep_laws};
use crate::linking::{Network, link_units};
use crate::prepared::Prepared;
use crate::{Delivery, NetJob};
use ff_net::Checked;
use ff_node::Node;
use ff_plan::{Queue, plan};
use ff_rec::NoMemory;
use ff_ring::{Pause, Spins};
use ff_spawn::{Denial, RunningJobs, Spawner};
use ff_steps::{NetUnit, make_units};
use ff_unit::Threaded;
use std::alloc::Global;
use std::sync::Wait;

/// Takes all memory that the threads of a network need to be started and joined.
pub(crate) fn prepare<N: Node + Send + 'static, R: Wait + Clone + Drop + Send + 'static>(
    rt: &R,
    alloc: Global,
    checked: &Checked<N>,
    cap: u32,
    delivery: Delivery,
    limit: u64,
    keep: bool,
) -> Result<Prepared<NetUnit<N>, R>, NoMemory>
    requires low { 1 ≤ cap }
    requires high { cap ≤ 4096 }
    ensures { IfOk result (λ p. IsPrepared N.does limit keep (tree_of checked.now.net) cap (size_of p.caller.first)
        (caller_of p.caller) p.jobs.items p.units.items (vec_capacity p.units) p.running.jobs p.running.room
        (length p.board.ins.items) (length p.board.outs.items)) }
{
    plans_keep_laws(checked);
    plans_are_wired(checked);
    let units = make_units(alloc, checked, limit, keep)?;
    let room = Vec::with_capacity(alloc, units.len())?;
    let bells = Bells::new(alloc, units.len())?;
    let (rows, edges) = plan(alloc, checked, cap, Queue::Ring)?.into_parts();
    let network = link_units(alloc, delivery, units, rows, &edges, &bells, rt)?;
    let Network {
        first,
        jobs,
        last,
        board,
    } = network;
    let waits = rt.clone()?;
    let running = running_room(alloc, jobs.len())?;
    let Bells { own, units: others } = bells;
    Ok(Prepared {
        caller: Caller::new(
            alloc,
            first,
            last,
            Pause::new(own, spins_at(cap), false),
            others,
            checked.has_wrap(),
        ),
        jobs,
        board,
        units: room,
        running,
        rt: waits,
    })
}

// How long the calling thread spins, with rings of so many slots. Over one slot each record comes alone.
fn spins_at(cap: u32) -> Spins
    ensures single { cap ≡ 1 → result ≡ Spins.Long }
    ensures more { cap ≢ 1 → result ≡ Spins.Few }
{
    if cap == 1 { Spins::Long } else { Spins::Few }
}

// Room for so many jobs while they run. It is a call of its own, since that jobs may go to another thread is shown for any
// units that may.
fn running_room<U: Threaded + Send + 'static, R: Wait + Drop + Send + 'static>(
    alloc: Global,
    count: usize,
) -> Result<RunningJobs<NetJob<U, R>>, NoMemory>
    ensures { IfOk result (λ running. running ≡ record { jobs = []; room = count }) }
{
    RunningJobs::with_capacity(alloc, count)
}

/// Starts all jobs. Where that can't be done, those that were started are ended and joined.
pub(crate) fn start<
    U: Threaded + Send + 'static,
    R: Wait + Drop + Send + 'static,
    S: Spawner<NetJob<U, R>>,
>(
    rt: &R,
    alloc: Global,
    prepared: Prepared<U, R>,
    spawner: &mut S,
) -> Result<(Caller, Crew<U, R>, R), Denial>
    requires fresh { All (λ j. IsFresh U.does j) prepared.jobs.items }
    requires none { prepared.running.jobs ≡ [] }
    requires room { length prepared.jobs.items ≤ prepared.running.room }
    requires empty { prepared.units.items ≡ [] }
    requires unit_room { length prepared.jobs.items ≤ vec_capacity prepared.units }
    requires wired { IsWired (map (λ job. job.row) prepared.jobs.items)
        (length prepared.board.ins.items) }
    requires places { length prepared.board.outs.items ≡ length prepared.board.ins.items }
    ensures caller { IfOk result (λ s. caller_of s.0 ≡ caller_of prepared.caller) }
    ensures crew { IfOk result (λ s. s.1 ≡ prepared.jobs.items) }
    ensures refused { S.refused spawner.new ≡ denied_after (S.refused spawner.old) result }
    ensures starts { OnOk result
        (S.starts spawner.new ≡ count_more (S.starts spawner.old) prepared.jobs.items) }
    ensures worked { OnOk result (S.worked spawner.new ≡ S.worked spawner.old) }
{
    let Prepared {
        mut caller,
        mut jobs,
        board,
        units,
        mut running,
        rt: waits,
    } = prepared;
    match running.start_all(alloc, spawner, &mut jobs) {
        Ok(()) => Ok((caller, Crew::new(running, jobs, units, board), waits)),
        Err(denial) => {
            break_up(&mut caller, rt, running, jobs, spawner);
            Err(denial)
        }
    }
}

// Ends the jobs of which not all could be started: those that were see an Abort from those that weren't.
fn break_up<
    U: Threaded + Send + 'static,
    R: Wait + Drop + Send + 'static,
    S: Spawner<NetJob<U, R>>,
>(
    caller: &mut Caller,
    rt: &R,
    running: RunningJobs<NetJob<U, R>>,
    jobs: Vec<NetJob<U, R>>,
    spawner: &mut S,
)
    requires fresh { All (λ j. IsFresh U.does j) jobs.items }
    requires room { vec_len jobs + length running.jobs ≤ vec_capacity jobs }
    ensures refused { S.refused spawner.new ≡ S.refused spawner.old }
{
    let mut jobs = jobs;
    while let Some(mut job) = jobs.pop() {
        job.abort();
    }
    caller.drop_rest(rt);
    running.finish_all(spawner, &mut jobs);
}
