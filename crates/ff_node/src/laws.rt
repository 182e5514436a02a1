// What holds of every node, whatever the call.
ghost use Rattle.ff_node.specs.Comb.{CombIsPipeline, CombEndsWithFirst};
ghost use Rattle.ff_node.specs.OnLists.{PlainGoesByRecords, UnorderedGoesByCounts, KeyedGoesByKeys};

use crate::Node;

/// What the class of a node says of whole lists of records.
pub fn class_laws<N: Node>(_node: &N)
    ensures plain { PlainGoesByRecords N.does }
    ensures unordered { UnorderedGoesByCounts N.does }
    ensures keyed { KeyedGoesByKeys N.does }
{}

/// A comb is its nodes one behind another, and ends where the first does.
pub fn comb_is_composition<N: Node>(_node: &N)
    ensures line { CombIsPipeline N.does }
    ensures ends { CombEndsWithFirst N.does }
{}
