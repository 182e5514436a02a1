// What holds of a network's plan whatever the call, for functions whose nodes go to other threads: in their proofs the laws of a bound
// can't be named.
ghost use Rattle.ff_net.specs.Counts.{edges};
ghost use Rattle.ff_net.specs.Tree.{tree_of};
ghost use Rattle.ff_plan.specs.Plans.{rows_of};
ghost use Rattle.ff_engine.specs.Lines.{IsWired};
ghost use Rattle.ff_engine.specs.Networks.{HasLaws};

use ff_net::Checked;
use ff_net::laws::checked_networks_are_good;
use ff_node::Node;
use ff_plan::laws::{cut_runs, each_task_is_done_once, whole_runs};

/// Each edge of a network's plan has one reader and one writer.
pub(crate) fn plans_are_wired<N: Node>(checked: &Checked<N>)
    ensures { IsWired (rows_of (tree_of checked.now.net)) (edges (tree_of checked.now.net)) }
{
    checked_networks_are_good(checked);
}

/// The laws of a network's plan.
pub(crate) fn plans_keep_laws<N: Node>(checked: &Checked<N>)
    ensures { HasLaws N.does (tree_of checked.now.net) }
{
    checked_networks_are_good(checked);
    whole_runs(checked);
    cut_runs(checked);
    each_task_is_done_once(checked);
}
