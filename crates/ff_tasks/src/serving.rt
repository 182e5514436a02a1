// How the master gives out tasks and takes answers.
ghost use Rattle.std.specs.Prelude.{◌≡◌, ◌<◌, ◌≤◌, length, false, OnOk};
ghost use Rattle.ff_loop.specs.Events.{IsIdle};
ghost use Rattle.ff_loop.specs.Masters.{HasDoneAll, IsKept};
ghost use Rattle.ff_loop.specs.Scheduling.{made_by};
ghost use Rattle.ff_tasks.specs.Seats.{Stay};
ghost use Rattle.ff_tasks.specs.Serving.{IsFreest, IsServed, Serves, ServesAt};

use crate::seat::{MOST_AT_ONCE, Seat};
use crate::seats::pace;
use ff_loop::{Master, Scheduler};
use ff_rec::{Msg, NoMemory};
use ff_ring::Pause;
use std::sync::Wait;

/// Gives tasks and takes answers, until all is done. A worker may have `cap` tasks.
pub(crate) fn serve<T: Drop, A: Drop, S: Scheduler<T, A>, R: Wait>(
    master: &mut Master<T, A, S>,
    seats: &mut Vec<Seat<T, A>>,
    cap: u32,
    pause: &mut Pause,
    rt: &R,
) -> Result<(), NoMemory>
    requires { IsServed S.does master.old seats.old.items }
    ensures serves { OnOk result (Serves S.does master.old seats.old.items master.new seats.new.items) }
    ensures done { OnOk result (HasDoneAll S.does master.new) }
    ensures idle { OnOk result (IsIdle (made_by S.does master.new.scheduler)
        (S.does.events master.new.scheduler)) }
    ensures stay { Stay seats.old.items seats.new.items }
{
    let mut moved = false;
    for _ in rt.forever() {
        let moves = turn(master, seats, cap)?;
        if !moves {
            if master.idle() {
                return Ok(());
            }
        }
        pace(moves, moved, seats, pause, rt);
        moved = moves;
    }
    unreachable!()
}

// Takes what has come and gives what is ready. It answers whether there was something to do.
fn turn<T: Drop, A: Drop, S: Scheduler<T, A>>(
    master: &mut Master<T, A, S>,
    seats: &mut Vec<Seat<T, A>>,
    cap: u32,
) -> Result<bool, NoMemory>
    requires { IsServed S.does master.old seats.old.items }
    ensures serves { OnOk result (Serves S.does master.old seats.old.items master.new seats.new.items) }
    ensures stay { Stay seats.old.items seats.new.items }
{
    let came = collect(master, seats)?;
    let gave = give_all(master, seats, cap)?;
    Ok(came | gave)
}

// Takes the answers that have come. It answers whether some had.
fn collect<T: Drop, A: Drop, S: Scheduler<T, A>>(
    master: &mut Master<T, A, S>,
    seats: &mut Vec<Seat<T, A>>,
) -> Result<bool, NoMemory>
    requires { IsServed S.does master.old seats.old.items }
    ensures serves { OnOk result (Serves S.does master.old seats.old.items master.new seats.new.items) }
    ensures stay { Stay seats.old.items seats.new.items }
{
    let mut came = false;
    for w in 0..seats.len() as u32 {
        if collect_at(master, seats, w)? {
            came = true;
        }
    }
    Ok(came)
}

fn collect_at<T: Drop, A: Drop, S: Scheduler<T, A>>(
    master: &mut Master<T, A, S>,
    seats: &mut Vec<Seat<T, A>>,
    w: u32,
) -> Result<bool, NoMemory>
    requires served { IsServed S.does master.old seats.old.items }
    requires worker { w < length seats.old.items }
    ensures serves { OnOk result (Serves S.does master.old seats.old.items master.new seats.new.items) }
    ensures stay { Stay seats.old.items seats.new.items }
{
    collect_from(master, &mut seats[w as usize], w)
}

// Takes the answers of worker `w` that have come. It answers whether some had.
fn collect_from<T: Drop, A: Drop, S: Scheduler<T, A>>(
    master: &mut Master<T, A, S>,
    seat: &mut Seat<T, A>,
    w: u32,
) -> Result<bool, NoMemory>
    requires kept { IsKept S.does master.old }
    requires worker { w < length master.old.held }
    ensures serves { OnOk result (ServesAt S.does w master.old seat.old master.new seat.new) }
    ensures link { seat.new.link ≡ seat.old.link }
    ensures told { seat.new.told ≡ seat.old.told }
{
    for taken in 0..MOST_AT_ONCE {
        if !collect_one(master, seat, w)? {
            return Ok(taken > 0);
        }
    }
    Ok(true)
}

// Takes one answer of worker `w`, if it owes one. It answers whether one had come.
fn collect_one<T: Drop, A: Drop, S: Scheduler<T, A>>(
    master: &mut Master<T, A, S>,
    seat: &mut Seat<T, A>,
    w: u32,
) -> Result<bool, NoMemory>
    requires kept { IsKept S.does master.old }
    requires worker { w < length master.old.held }
    ensures serves { OnOk result (ServesAt S.does w master.old seat.old master.new seat.new) }
    ensures link { seat.new.link ≡ seat.old.link }
    ensures told { seat.new.told ≡ seat.old.told }
{
    if master.out(w) == 0 {
        return Ok(false);
    }
    match seat.take() {
        None => Ok(false),
        Some(Msg::Item(a)) => {
            master.got(w, a)?;
            Ok(true)
        }
        Some(Msg::Mark) => Ok(true),
        Some(Msg::Pick(_)) => Ok(true),
        // It ends before it is told to only for want of memory.
        Some(Msg::Eos | Msg::Abort) => Err(NoMemory),
    }
}

// Gives out ready tasks, as many as the workers may have. It answers whether it gave one.
fn give_all<T: Drop, A: Drop, S: Scheduler<T, A>>(
    master: &mut Master<T, A, S>,
    seats: &mut Vec<Seat<T, A>>,
    cap: u32,
) -> Result<bool, NoMemory>
    requires { IsServed S.does master.old seats.old.items }
    ensures serves { OnOk result (Serves S.does master.old seats.old.items master.new seats.new.items) }
    ensures stay { Stay seats.old.items seats.new.items }
{
    for given in 0..MOST_AT_ONCE {
        let Some(w) = freest(master, seats.len() as u32, cap) else {
            return Ok(given > 0);
        };
        if !give_to(master, seats, w)? {
            return Ok(given > 0);
        }
    }
    Ok(true)
}

fn give_to<T: Drop, A: Drop, S: Scheduler<T, A>>(
    master: &mut Master<T, A, S>,
    seats: &mut Vec<Seat<T, A>>,
    w: u32,
) -> Result<bool, NoMemory>
    requires served { IsServed S.does master.old seats.old.items }
    requires worker { w < length seats.old.items }
    ensures serves { OnOk result (Serves S.does master.old seats.old.items master.new seats.new.items) }
    ensures stay { Stay seats.old.items seats.new.items }
{
    seats[w as usize].give(master, w)
}

// The worker with the fewest tasks, the first of these, if it may have one more.
fn freest<T: Drop, A: Drop, S: Scheduler<T, A>>(
    master: &Master<T, A, S>,
    workers: u32,
    cap: u32,
) -> Option<u32>
    requires kept { IsKept S.does master.now }
    requires workers { workers ≤ length master.now.held }
    ensures { IsFreest cap workers master.now result }
{
    let mut best = None;
    let mut fewest = u64::from(cap);
    for w in 0..workers {
        let out = master.out(w);
        if out < fewest {
            fewest = out;
            best = Some(w);
        }
    }
    best
}
