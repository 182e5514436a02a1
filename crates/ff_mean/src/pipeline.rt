// Nodes one behind another.
ghost use Rattle.std.specs.Prelude.{◌≡◌, [], IfOk, OnOk};
ghost use Rattle.ff_node.specs.Behaviour.{pipeline, pipeline_rejected};
ghost use Rattle.ff_node.specs.Sends.{add};

use crate::single::run_node;
use ff_node::{Node, Records, Sends};
use ff_rec::NoMemory;

/// What nodes send one behind another, each fed with all that the one before it sends. What they reject is added to `out`.
pub(crate) fn run_pipeline<N: Node>(
    nodes: Vec<N>,
    input: Records,
    out: &mut Sends,
) -> Result<Records, NoMemory>
    requires { out.old.sends ≡ [] }
    ensures sent { IfOk result (λ sent. sent ≡ pipeline N.does nodes.items input) }
    ensures rejected { OnOk result (out.new ≡ add out.old [] (pipeline_rejected N.does nodes.items input)) }
{
    let mut records = input;
    for node in nodes {
        records = run_node(node, records, out)?;
    }
    Ok(records)
}
