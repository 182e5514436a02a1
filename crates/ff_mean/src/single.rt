// One node over a list of records.
ghost use Rattle.std.specs.Prelude.{◌≡◌, [], IfOk, OnOk};
ghost use Rattle.ff_node.specs.Behaviour.{node, node_rejected, sent_from, rejected_from};
ghost use Rattle.ff_node.specs.Sends.{add};

use ff_node::{Next, Node, Records, Sends};
use ff_rec::NoMemory;

/// What a node sends for these records. What it rejects is added to `out`.
pub(crate) fn run_node<N: Node>(
    mut runner: N,
    input: Records,
    out: &mut Sends,
) -> Result<Records, NoMemory>
    requires { out.old.sends ≡ [] }
    ensures sent { IfOk result (λ sent. sent ≡ node N.does runner input) }
    ensures rejected { OnOk result (out.new ≡ add out.old [] (node_rejected N.does runner input)) }
{
    runner.svc_init();
    feed(&mut runner, input, out)?;
    runner.eos_notify(out)?;
    runner.svc_end();
    out.take_sends()
}

// Hands these records to a node, up to the first that ends it.
fn feed<N: Node>(runner: &mut N, mut input: Records, out: &mut Sends) -> Result<(), NoMemory>
    ensures { OnOk result (add out.new (N.does.last runner.new) (N.does.last_rejects runner.new)
        ≡ add out.old (sent_from N.does runner.old input) (rejected_from N.does runner.old input)) }
{
    while let Some(r) = input.take_first() {
        match runner.svc(r, out)? {
            Next::GoOn => {}
            Next::Eos => return Ok(()),
        }
    }
    Ok(())
}
