// Where the units of plans stand, whatever the call.
ghost use Rattle.ff_net.specs.Tree.{tree_of};
ghost use Rattle.ff_plan.specs.Standing.{NetsAtPlaces};

use ff_net::Checked;
use ff_node::Node;

/// The network of each unit of a network is what stands at its place.
pub fn nets_stand_at_places<N: Node>(checked: &Checked<N>)
    ensures { NetsAtPlaces (tree_of checked.now.net) }
{}
