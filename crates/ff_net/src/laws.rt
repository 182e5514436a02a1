// What holds of the words of this crate's contracts, whatever the call.
ghost use Rattle.ff_net.specs.Good.{Good, IsWithin, WrapsOnTop};
ghost use Rattle.ff_net.specs.LevelLaws.{RoundsEnd};
ghost use Rattle.ff_net.specs.MeaningLaws.{PipelineOfNodes};
ghost use Rattle.ff_net.specs.Tree.{tree_of};

use crate::Checked;
use ff_node::Node;

/// A pipe or a comb of nodes means these nodes one behind another.
pub fn pipes_of_nodes_are_pipelines<N: Node>(_node: &N)
    ensures { PipelineOfNodes N.does }
{}

/// What a network that keeps all rules gives to those that reason about it.
pub fn checked_networks_are_good<N: Node>(checked: &Checked<N>)
    ensures good { Good N.does (tree_of checked.now.net) }
    ensures wraps { WrapsOnTop (tree_of checked.now.net) }
    ensures limits { IsWithin checked.now.version (tree_of checked.now.net) }
{}

/// A wrap that isn't over its limit has all its results and rejects within the levels that are looked at.
pub fn rounds_end()
    ensures { RoundsEnd }
{}
