// How the units of plans are joined, whatever the call.
ghost use Rattle.ff_net.specs.Tree.{tree_of};
ghost use Rattle.ff_plan.specs.WiringLaws.{IsJoined};

use ff_net::Checked;
use ff_net::laws::checked_networks_are_good;
use ff_node::Node;

/// Each edge of a network's plan has one writer and one reader.
pub fn each_edge_has_two_ends<N: Node>(checked: &Checked<N>)
    ensures { IsJoined (tree_of checked.now.net) }
{
    checked_networks_are_good(checked);
}
