// What holds of the plans of networks, whatever the call.
ghost use Rattle.std.specs.Prelude.{◌≡◌, ℕ, true};
ghost use Rattle.ff_net.specs.Forms.{sweeps};
ghost use Rattle.ff_net.specs.Tree.{tree_of};
ghost use Rattle.ff_plan.specs.LogLaws.{LogLaws};
ghost use Rattle.ff_plan.specs.PlanLaws.{WholeRuns, CutRuns};
ghost use Rattle.ff_plan.specs.TrafficLaws.{Traffic};

use ff_net::Checked;
use ff_node::Node;

/// Whole runs of a network's plan, with any limit of tasks: where each unit fits its ins and outs, the last edge carries
/// an answer of the network, and the units rejected what the network rejects.
pub fn whole_runs<N: Node>(checked: &Checked<N>)
    ensures { (m : ℕ) → WholeRuns N.does m (tree_of checked.now.net) }
{}

/// Feedback: in every whole run the log of each wrap's master is legal and sound, and over the limit of tasks exactly where the
/// records that go round from its first in are. Where none is over, each task, fed in or spawned, was given once and answered
/// once, none remains, and the results went out.
pub fn each_task_is_done_once<N: Node>(checked: &Checked<N>)
    ensures { (m : ℕ) → LogLaws N.does m (tree_of checked.now.net) }
{}

/// Runs that were cut short: where each unit begins to fit what it took and put, the records on the last edge are the
/// first of an answer.
pub fn cut_runs<N: Node>(checked: &Checked<N>)
    ensures { (m : ℕ) → CutRuns N.does m (tree_of checked.now.net) }
{}

/// Traffic: in every history of the plan of a network that sweeps, the messages on all edges together, each with its Eos,
/// are at most as many as its records and Marks say.
pub fn traffic<N: Node>(checked: &Checked<N>)
    requires { sweeps (tree_of checked.now.net) ≡ true }
    ensures { (m : ℕ) → Traffic N.does m (tree_of checked.now.net) }
{}
