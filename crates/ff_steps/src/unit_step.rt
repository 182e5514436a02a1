// A step of one unit over the edges of a core.
ghost use Rattle.std.specs.Prelude.{◌≡◌, ◌<◌, length, slice_index_or, vec_len};
ghost use Rattle.ff_unit.specs.Units.{Ran};
ghost use Rattle.ff_steps.specs.Links.{gots_at, puts_at};
ghost use Rattle.ff_steps.specs.Moves.{UnitMoves};
ghost use Rattle.ff_steps.specs.Wiring.{row_at, IsPortRow};

use crate::row::PortRow;
use crate::row_ports::RowPorts;
use ff_port::PlainQueue;
use ff_rec::Record;
use ff_unit::Unit;

/// Unit `p` makes one step over the edges of its row.
pub(crate) fn step_unit<U: Unit>(
    units: &mut Vec<U>,
    edges: &mut Vec<PlainQueue<Record>>,
    rows: &Vec<PortRow>,
    p: usize,
)
    requires within { p < vec_len units.old }
    requires row_within { p < vec_len rows.now }
    requires wired { IsPortRow (row_at rows.now.items p) (length edges.old.items) }
    requires ran { (u : U) → u ≡ slice_index_or units.old.items p u
        → Ran U.does u (gots_at edges.old.items (row_at rows.now.items p).ins)
        (puts_at edges.old.items (row_at rows.now.items p).outs) }
    ensures { UnitMoves U.does p (row_at rows.now.items p)
        units.old.items edges.old.items units.new.items edges.new.items }
{
    let row = &rows[p];
    let mut ports = RowPorts {
        edges,
        ins: row.ins(),
        outs: row.outs(),
    };
    units[p].step(&mut ports);
}
