// How jobs are made of units, the rows of their plan and the rings between them.
ghost use Rattle.std.specs.Prelude.{◌≡◌, ℕ, length, map, All, IfOk, OnOk};
ghost use Rattle.std.specs.List.{AllZip, flat_map};
ghost use Rattle.ff_ring.specs.Names.{RingName};
ghost use Rattle.ff_engine.specs.Boards.{AreFresh, AreNamed, naps_for, spins_for};
ghost use Rattle.ff_engine.specs.Jobs.{IsFresh, IsOpened, RingSize};
ghost use Rattle.ff_engine.specs.Lines.{HasEnds};
ghost use Rattle.ff_engine.specs.RingSizes.{size_of, AreSized};
ghost use Rattle.ff_engine.specs.Slots.{EachKept, Holds, emptied};

use crate::NetJob;
use crate::bells::Bells;
use crate::board::Board;
use crate::slots::take_ends;
use ff_plan::{UnitKind, UnitRow};
use ff_rec::{NoMemory, Record};
use ff_ring::{Bell, Pause, RingIn, RingOut, Spins};
use ff_unit::Unit;
use std::alloc::Global;
use std::sync::Arc;

/// A job for each unit, with the ends of the edges that its row names.
pub(crate) fn make_jobs<U: Unit, R: Clone + Drop>(
    alloc: Global,
    units: Vec<U>,
    rows: Vec<UnitRow>,
    bells: &Bells,
    rt: &R,
    board: &mut Board,
) -> Result<Vec<NetJob<U, R>>, NoMemory>
    requires opened { AllZip (λ row unit. IsOpened U.does row unit) rows.items units.items }
    requires ins { Holds (flat_map (λ row. row.ins) rows.items) board.old.ins.items }
    requires outs { Holds (flat_map (λ row. row.outs) rows.items) board.old.outs.items }
    requires fresh { AreFresh board.old.ins.items board.old.outs.items }
    ensures units { IfOk result (λ jobs. map (λ job. job.unit) jobs.items ≡ units.items) }
    ensures rows { IfOk result (λ jobs. map (λ job. job.row) jobs.items ≡ rows.items) }
    ensures fresh { IfOk result (λ jobs. All (λ job. IsFresh U.does job) jobs.items) }
    ensures ends { IfOk result (λ jobs. (name : ℕ → RingName)
        → AreNamed name board.old.ins.items board.old.outs.items
        → All (λ job. HasEnds name job) jobs.items) }
    ensures sizes { IfOk result (λ jobs. (size : ℕ → RingSize)
        → EachKept (λ e out. size_of out ≡ size e) board.old.outs.items → AreSized size jobs.items) }
    ensures places { OnOk result (length board.new.ins.items ≡ length board.old.ins.items) }
    ensures out_places { OnOk result (length board.new.outs.items ≡ length board.old.outs.items) }
{
    let mut jobs = Vec::with_capacity(alloc, units.len())?;
    let mut rows = rows.into_iter();
    for unit in units {
        let Some(row) = rows.next() else {
            unreachable!()
        };
        let bell = Arc::try_clone(bells.unit(jobs.len()))?;
        jobs.push(make_job(alloc, unit, row, bell, rt, board)?)?;
    }
    Ok(jobs)
}

// How the thread of a unit between these ends waits.
fn pause_of(
    bell: Arc<Bell, Global>,
    kind: UnitKind,
    ins: &[RingIn<Record>],
    outs: &[RingOut<Record>],
) -> Pause {
    let single = ins.iter().any(|inn| inn.is_single()) || outs.iter().any(|out| out.is_single());
    Pause::new(bell, spins_of(kind, single), naps(kind))
}

// How long the thread of a unit spins. A worker of a wrap waits for its next task, and the master for the answers. Over a ring of one
// slot each record comes alone, and so do answers to an ordered merge that is told who has each.
fn spins_of(kind: UnitKind, single: bool) -> Spins
    ensures { result ≡ spins_for single kind }
{
    match kind {
        UnitKind::Master | UnitKind::Worker => Spins::Many,
        UnitKind::OMergePick => Spins::Long,
        _ if single => Spins::Long,
        _ => Spins::Few,
    }
}

// Whether the thread of a unit naps before it hands over what it has gathered. What a deal takes at once goes to several outs, little to
// each, and to wake each reader for that costs more than the work on it.
fn naps(kind: UnitKind) -> bool
    ensures { result ≡ naps_for kind }
{
    match kind {
        UnitKind::DealRr | UnitKind::DealBy(_) | UnitKind::ODealRr => true,
        _ => false,
    }
}

// A job of this unit with the ends of the edges that its row names.
fn make_job<U: Unit, R: Clone + Drop>(
    alloc: Global,
    unit: U,
    row: UnitRow,
    bell: Arc<Bell, Global>,
    rt: &R,
    board: &mut Board,
) -> Result<NetJob<U, R>, NoMemory>
    requires opened { IsOpened U.does row unit }
    requires ins { Holds row.ins board.old.ins.items }
    requires outs { Holds row.outs board.old.outs.items }
    requires fresh { AreFresh board.old.ins.items board.old.outs.items }
    ensures unit { IfOk result (λ job. job.unit ≡ unit) }
    ensures row { IfOk result (λ job. job.row ≡ row) }
    ensures fresh { IfOk result (λ job. IsFresh U.does job) }
    ensures ends { IfOk result (λ job. (name : ℕ → RingName)
        → AreNamed name board.old.ins.items board.old.outs.items → HasEnds name job) }
    ensures sizes { IfOk result (λ job. (size : ℕ → RingSize)
        → EachKept (λ e out. size_of out ≡ size e) board.old.outs.items → job.sizes ≡ map size job.row.outs) }
    ensures ins { OnOk result (board.new.ins.items ≡ emptied row.ins board.old.ins.items) }
    ensures outs { OnOk result (board.new.outs.items ≡ emptied row.outs board.old.outs.items) }
{
    let ins = take_ends(alloc, row.ins.as_slice(), &mut board.ins)?;
    let outs = take_ends(alloc, row.outs.as_slice(), &mut board.outs)?;
    let pause = pause_of(bell, row.kind, &ins, &outs);
    Ok(NetJob::new(unit, row, ins, outs, pause, rt.clone()?))
}
