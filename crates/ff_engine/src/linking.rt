// How the rings of a plan are made, and their ends given to the caller and to the jobs.
ghost use Rattle.std.specs.Prelude.{◌≡◌, ℕ, ◌≤◌, [], ◌∷◌, length, map, None, Some, All, IfOk, slice_set};
ghost use Rattle.std.specs.List.{AllZip};
ghost use Rattle.ff_plan.specs.Rows.{range};
ghost use Rattle.ff_ring.specs.Ends.{got_of, put_of, read_ring, written_ring};
ghost use Rattle.ff_engine.specs.Jobs.{IsFresh, IsOpened, RingSize};
ghost use Rattle.ff_engine.specs.Lines.{IsWired, Linked};
ghost use Rattle.ff_engine.specs.RingSizes.{size_for, size_of, AreSized};
ghost use Rattle.ff_engine.specs.Slots.{Holds, slot};

use crate::bells::Bells;
use crate::board::{Board, make_rings};
use crate::making::make_jobs;
use crate::{Delivery, NetJob};
use ff_plan::{Edge, UnitRow};
use ff_rec::{NoMemory, Record};
use ff_ring::{RingIn, RingOut};
use ff_unit::Unit;
use std::alloc::Global;

/// Jobs over rings, the caller's two ends, and the places of all the ends.
pub(crate) struct Network<U: Unit, R> {
    pub(crate) first: RingOut<Record>,
    pub(crate) jobs: Vec<NetJob<U, R>>,
    pub(crate) last: RingIn<Record>,
    pub(crate) board: Board,
}

/// Jobs of these units over rings: one for each edge of their plan.
pub(crate) fn link_units<U: Unit, R: Clone + Drop>(
    alloc: Global,
    delivery: Delivery,
    units: Vec<U>,
    rows: Vec<UnitRow>,
    edges: &[Edge],
    bells: &Bells,
    rt: &R,
) -> Result<Network<U, R>, NoMemory>
    requires opened { AllZip (λ row unit. IsOpened U.does row unit) rows.items units.items }
    requires wired { IsWired rows.items (length edges.now) }
    requires low { All (λ edge. 1 ≤ edge.cap) edges.now }
    requires high { All (λ edge. edge.cap ≤ 4096) edges.now }
    ensures linked { IfOk result (λ n. Linked (written_ring n.first) n.jobs.items (read_ring n.last)) }
    ensures units { IfOk result (λ n. map (λ job. job.unit) n.jobs.items ≡ units.items) }
    ensures rows { IfOk result (λ n. map (λ job. job.row) n.jobs.items ≡ rows.items) }
    ensures fresh { IfOk result (λ n. All (λ job. IsFresh U.does job) n.jobs.items) }
    ensures sizes { IfOk result (λ n. (size : ℕ → RingSize)
        → map (λ edge. size_for edge.cap) edges.now ≡ map size (range 0 (length edges.now))
        → AreSized size n.jobs.items) }
    ensures first { IfOk result (λ n. (size : ℕ → RingSize)
        → map (λ edge. size_for edge.cap) edges.now ≡ map size (range 0 (length edges.now))
        → size_of n.first ≡ size 0) }
    ensures put { IfOk result (λ n. put_of n.first ≡ []) }
    ensures got { IfOk result (λ n. got_of n.last ≡ []) }
    ensures ins { IfOk result (λ n. length n.board.ins.items ≡ length edges.now) }
    ensures outs { IfOk result (λ n. length n.board.outs.items ≡ length edges.now) }
{
    let mut board = make_rings(alloc, delivery, &rows, edges, bells)?;
    let (first, last) = take_outer(&mut board);
    let jobs = make_jobs(alloc, units, rows, bells, rt, &mut board)?;
    Ok(Network {
        first,
        jobs,
        last,
        board,
    })
}

// Takes out the caller's ends: he writes edge 0 and reads edge 1.
fn take_outer(board: &mut Board) -> (RingOut<Record>, RingIn<Record>)
    requires first { Holds (0 ∷ []) board.old.outs.items }
    requires last { Holds (1 ∷ []) board.old.ins.items }
    ensures first { slot board.old.outs.items 0 ≡ Some result.0 }
    ensures last { slot board.old.ins.items 1 ≡ Some result.1 }
    ensures outs { board.new.outs.items ≡ slice_set board.old.outs.items 0 None }
    ensures ins { board.new.ins.items ≡ slice_set board.old.ins.items 1 None }
{
    let Some(first) = board.outs[0].take() else {
        unreachable!()
    };
    let Some(last) = board.ins[1].take() else {
        unreachable!()
    };
    (first, last)
}
