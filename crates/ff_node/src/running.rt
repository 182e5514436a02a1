// The calls of a node that runs.
ghost use Rattle.std.specs.Prelude.{◌≡◌, IfOk, OnOk};
ghost use Rattle.ff_node.specs.Feeds.{Feeds};
ghost use Rattle.ff_node.specs.Sends.{add};

use crate::{Next, Node, Sends};
use ff_rec::{NoMemory, Record};

/// Hands a record to a node that runs, and where it ends with it makes its last calls. After `NoMemory` the caller gives
/// the node up.
#[inline(always)]
pub fn node_step<N: Node>(node: &mut N, r: Record, out: &mut Sends) -> Result<Next, NoMemory>
    ensures kind { N.does.opening node.new ≡ N.does.opening node.old }
    ensures fed { IfOk result (λ next. Feeds N.does node.old out.old r next node.new out.new) }
{
    let next = node.svc(r, out)?;
    match next {
        Next::GoOn => {}
        Next::Eos => node_end(node, out)?,
    }
    Ok(next)
}

/// The last calls of a node, which is in its opening state then. After `NoMemory` the caller gives it up.
pub fn node_end<N: Node>(node: &mut N, out: &mut Sends) -> Result<(), NoMemory>
    ensures kind { N.does.opening node.new ≡ N.does.opening node.old }
    ensures ended { OnOk result (node.new ≡ N.does.opening node.old) }
    ensures sends { OnOk result (out.new ≡ add out.old (N.does.last node.old) (N.does.last_rejects node.old)) }
{
    node.eos_notify(out)?;
    node.svc_end();
    Ok(())
}
