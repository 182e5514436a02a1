// Jobs whose threads have ended.
ghost use Rattle.std.specs.Prelude.{◌≡◌, ◌≤◌, [], length, map, vec_len, vec_capacity, All};
ghost use Rattle.ff_ring.specs.Ends.{got_of, put_of, read_ring, written_ring};
ghost use Rattle.ff_engine.specs.Lines.{HasEnds, IsSettled, IsWired, Linked};
ghost use Rattle.ff_engine.specs.Jobs.{HasPorts};

use crate::NetJob;
use crate::board::{Board, settle_rings};
use crate::slots::put_ends;
use ff_rec::Record;
use ff_ring::{RingIn, RingOut};
use ff_unit::Unit;

/// Puts all ends back on the board, settles their rings, and takes the jobs apart: their units stand in `units` then.
pub(crate) fn settle_jobs<U: Unit, R: Drop>(
    first: RingOut<Record>,
    jobs: Vec<NetJob<U, R>>,
    last: RingIn<Record>,
    board: Board,
    units: &mut Vec<U>,
)
    requires linked { Linked (written_ring first) jobs.items (read_ring last) }
    requires ports { All HasPorts jobs.items }
    requires wired { IsWired (map (λ job. job.row) jobs.items) (length board.ins.items) }
    requires places { length board.outs.items ≡ length board.ins.items }
    requires empty { units.old.items ≡ [] }
    requires room { vec_len jobs ≤ vec_capacity units.old }
    ensures units { units.new.items ≡ map (λ job. job.unit) jobs.items }
    ensures settled { IsSettled (put_of first) jobs.items (got_of last) }
{
    let Board { mut ins, mut outs } = board;
    outs[0] = Some(first);
    ins[1] = Some(last);
    for job in jobs {
        let (unit, row, own_ins, own_outs) = job.into_parts();
        put_ends(row.ins.as_slice(), own_ins, &mut ins);
        put_ends(row.outs.as_slice(), own_outs, &mut outs);
        units.push_reserved(unit);
    }
    settle_rings(&mut ins, &mut outs);
}
