// What is done with a node from its opening to its end.
ghost use Rattle.std.specs.Prelude.{◌≡◌, [], ◌∷◌, false, List, IfOk, OnOk};
ghost use Rattle.ff_rec.specs.Lines.{Rec};
ghost use Rattle.ff_node.specs.Feeds.{in_all};
ghost use Rattle.ff_stream.specs.Flows.{due, told, IsOpened};

use super::Flow;
use crate::{Report, Text};
use ff_node::{Node, Sends, node_end, node_step};
use ff_rec::{NoMemory, Record};
use std::alloc::Global;

/// A node in its opening state. Its rejected records are kept where `keep` says so.
pub fn open<M: Node>(alloc: Global, mut node: M, keep: bool) -> Flow<M>
    ensures { IsOpened M.does node keep result }
{
    node.svc_init();
    Flow {
        node,
        ended: false,
        sends: Sends::new(alloc, keep),
        text: Text::new(alloc),
    }
}

/// Hands a record to the node, unless that ended, and prints what it sends for it.
pub(crate) fn hand<M: Node>(flow: &mut Flow<M>, r: Record) -> Result<(), NoMemory>
    ensures sends { OnOk result ((zs : List Rec) →
        due M.does flow.old (r ∷ zs) ≡ due M.does flow.new zs) }
    ensures rejects { OnOk result ((zs : List Rec) →
        told M.does flow.old (r ∷ zs) ≡ told M.does flow.new zs) }
{
    if flow.ended {
        return Ok(());
    }
    flow.ended = step(&mut flow.node, r, &mut flow.sends)?;
    flow.text.print_sends(&mut flow.sends)
}

// Hands a record to a node that runs. The answer is whether that ended it.
fn step<M: Node>(node: &mut M, r: Record, out: &mut Sends) -> Result<bool, NoMemory>
    ensures { IfOk result (λ ended. (zs : List Rec) →
        in_all M.does false node.old out.old (r ∷ zs) ≡ in_all M.does ended node.new out.new zs) }
{
    let next = node_step(node, r, out)?;
    Ok(next.is_eos())
}

/// Brings the node to its end, and prints its last records.
pub(crate) fn end<M: Node>(flow: &mut Flow<M>) -> Result<(), NoMemory>
    ensures text { OnOk result (flow.new.text ≡ due M.does flow.old []) }
    ensures rejects { OnOk result (flow.new.sends ≡ told M.does flow.old []) }
{
    bring_to_end(&mut flow.node, flow.ended, &mut flow.sends)?;
    flow.text.print_sends(&mut flow.sends)
}

// The last records of a node, unless it ended by itself.
fn bring_to_end<M: Node>(node: &mut M, ended: bool, out: &mut Sends) -> Result<(), NoMemory>
    ensures { OnOk result (out.new ≡ in_all M.does ended node.old out.old []) }
{
    if ended {
        return Ok(());
    }
    node_end(node, out)
}

/// The report of what was rejected; the records that are kept are taken out.
pub(crate) fn report_of(sends: &mut Sends) -> Report
    ensures number { result.rejected ≡ sends.old.rejects }
    ensures records { result.kept ≡ sends.old.kept }
{
    let rejected = sends.rejects();
    Report {
        rejected,
        kept: sends.take_kept(),
    }
}
