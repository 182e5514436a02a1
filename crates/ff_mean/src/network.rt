// A network over a list of records.
ghost use Rattle.std.specs.Prelude.{◌≡◌, [], IfOk};
ghost use Rattle.ff_net.specs.Good.{Good, WrapsOnTop};
ghost use Rattle.ff_net.specs.Tree.{tree_of};
ghost use Rattle.ff_mean.specs.Gathering.{HasRunNet};
ghost use Rattle.ff_mean.specs.Runs.{Answered};

use crate::Outcome;
use crate::part::{run_part, run_parts};
use ff_net::laws::checked_networks_are_good;
use ff_net::{Checked, Net};
use ff_node::{Node, Records, Sends};
use ff_rec::NoMemory;
use std::alloc::Global;

/// Computes what a network means for these records, where a wrap may have at most `limit` tasks. Rejects are kept where
/// `keep` says so.
pub fn run_one<N: Node>(
    alloc: Global,
    checked: &Checked<N>,
    limit: u64,
    keep: bool,
    input: Records,
) -> Result<Outcome, NoMemory>
    ensures { IfOk result (λ outcome. Answered N.does limit keep (tree_of checked.now.net) input outcome) }
{
    checked_networks_are_good(checked);
    let mut out = Sends::new(alloc, keep);
    let Some(sent) = run_net(alloc, checked.net(), limit, input, &mut out)? else {
        return Ok(Outcome::Over);
    };
    Ok(Outcome::Done {
        sent,
        rejected: out.rejects(),
        kept: out.take_kept(),
    })
}

// What a network gives, or `None` where a wrap is over its limit. What it rejects is added to `out`.
fn run_net<N: Node>(
    alloc: Global,
    net: &Net<N>,
    limit: u64,
    input: Records,
    out: &mut Sends,
) -> Result<Option<Records>, NoMemory>
    requires good { Good N.does (tree_of net.now) }
    requires wraps { WrapsOnTop (tree_of net.now) }
    requires empty { out.old.sends ≡ [] }
    ensures { IfOk result (λ answer. HasRunNet N.does limit (tree_of net.now) input out.old out.new answer) }
{
    if let Net::Pipe(parts) = net {
        return run_parts(alloc, parts, limit, input, out);
    }
    run_part(alloc, net, limit, input, out)
}
