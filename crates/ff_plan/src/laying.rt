// How a network is laid: its units in order, between the edge that it reads and the edge that it writes.
ghost use Rattle.std.specs.Prelude.{◌≡◌, ◌+◌, ◌-◌, ◌≤◌, ◌<◌, ◌++◌, map, length, if◌then◌else◌, OnOk, IfOk};
ghost use Rattle.ff_net.specs.Counts.{count, depth, deepest, inner_edges, all_inner_edges};
ghost use Rattle.ff_net.specs.Tree.{tree_of, trees_of};
ghost use Rattle.ff_plan.specs.Laying.{lay, lay_parts};

use crate::UnitRow;
use crate::farms::{lay_farm, lay_ofarm};
use crate::forms::{lay_sets, lay_stage, lay_wrap};
use crate::kinds::route_kind;
use crate::span::Span;
use ff_net::{Net, Path};
use ff_rec::NoMemory;

/// Lays a network that stands at this place, and tells the first number that is left for an edge.
#[cycle(laying)]
#[tactic(auto, using(crate::proofs::LaidRows::laid_rows))]
pub(crate) fn lay<N>(
    net: &Net<N>,
    at: &Path,
    span: Span,
    units: &mut Vec<UnitRow>,
) -> Result<u32, NoMemory>
    requires room { length at.now + depth (tree_of net.now) ≤ 16 }
    requires few { span.inner + inner_edges (tree_of net.now) ≤ 2048 }
    ensures rows { OnOk result (units.new.items ≡ units.old.items
        ++ map (λ l. l.row) (lay at.now (tree_of net.now) span.from span.to span.inner)) }
    ensures next { IfOk result (λ next. next ≡ span.inner + inner_edges (tree_of net.now)) }
{
    match net {
        Net::Leaf(_) | Net::Comb(_) => lay_stage(at, span, units),
        Net::Pipe(parts) => lay_parts(parts, at, span, units),
        Net::Farm {
            workers,
            sched,
            worker,
        } => lay_farm(*workers, *sched, worker, at, span, units),
        Net::OFarm {
            workers,
            sched,
            worker,
        } => lay_ofarm(*workers, *sched, worker, at, span, units),
        Net::A2a {
            left,
            route,
            right,
            ..
        } => lay_sets(*left, route_kind(*route), *right, at, span, units),
        Net::Wrap { workers, .. } => lay_wrap(*workers, at, span, units),
    }
}

// Lays the parts of a pipe. The edges between them are numbered before those inside them.
#[cycle(laying)]
#[tactic(auto, using(crate::proofs::LaidRows::laid_rows))]
fn lay_parts<N>(
    parts: &[Net<N>],
    at: &Path,
    span: Span,
    units: &mut Vec<UnitRow>,
) -> Result<u32, NoMemory>
    requires room { length at.now + deepest (trees_of parts.now) < 16 }
    requires few { span.inner + ((count (trees_of parts.now) - 1) + all_inner_edges (trees_of parts.now)) ≤ 2048 }
    ensures rows { OnOk result (units.new.items ≡ units.old.items
        ++ map (λ l. l.row) (lay_parts at.now 1 (trees_of parts.now) span.from span.to span.inner
        (span.inner + (count (trees_of parts.now) - 1)))) }
    ensures next { IfOk result (λ next. next
        ≡ span.inner + ((count (trees_of parts.now) - 1) + all_inner_edges (trees_of parts.now))) }
{
    let mut from = span.from;
    let mut between = span.inner;
    let mut inner = span.inner + between_parts(parts);
    for (i, part) in parts.iter().enumerate() {
        let to = out_of(i + 1 == parts.len(), span.to, between);
        inner = lay(part, &at.down(i + 1), Span { from, to, inner }, units)?;
        from = to;
        between += 1;
    }
    Ok(inner)
}

// How many edges stand between the parts of a pipe.
#[tactic(auto, using(ff_net::proofs::CountLaws::counted_parts))]
fn between_parts<N>(parts: &[Net<N>]) -> u32
    requires { count (trees_of parts.now) - 1 ≤ 2048 }
    ensures { result ≡ count (trees_of parts.now) - 1 }
{
    parts.len().saturating_sub(1) as u32
}

// The edge that a part of a pipe writes: the last one that of the pipe, and each other one the next between two parts.
fn out_of(is_last: bool, to: u32, between: u32) -> u32
    ensures { result ≡ (if is_last then to else between) }
{
    if is_last { to } else { between }
}
