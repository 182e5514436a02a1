// What single networks are, and the classes of their leaves.
ghost use Rattle.std.specs.Prelude.{◌≡◌};
ghost use Rattle.ff_net.specs.Tree.{tree_of, trees_of};
ghost use Rattle.ff_net.specs.RuleTests.{is_leaf, is_node, are_nodes, is_pipeline, all_plain, each_plain, is_plain_node, is_plain_leaf, is_ordered_leaf, leaf_key};

use crate::Net;
use ff_node::{Class, Node};

/// One node.
#[tactic(auto, using(crate::specs::Tree::tree_forms))]
pub(crate) fn is_leaf<N>(net: &Net<N>) -> bool
    ensures { result ≡ is_leaf (tree_of net.now) }
{
    matches!(net, Net::Leaf(_))
}

/// One node, or several that run as one.
#[tactic(auto, using(crate::specs::Tree::tree_forms))]
pub(crate) fn is_node<N>(net: &Net<N>) -> bool
    ensures { result ≡ is_node (tree_of net.now) }
{
    matches!(net, Net::Leaf(_) | Net::Comb(_))
}

/// A leaf, a comb, or a pipe of leaves and combs.
#[tactic(auto, using(crate::specs::Tree::tree_forms))]
pub(crate) fn is_pipeline<N>(net: &Net<N>) -> bool
    ensures { result ≡ is_pipeline (tree_of net.now) }
{
    match net {
        Net::Leaf(_) | Net::Comb(_) => true,
        Net::Pipe(parts) => are_nodes(parts),
        _ => false,
    }
}

fn are_nodes<N>(parts: &[Net<N>]) -> bool
    ensures { result ≡ are_nodes (trees_of parts.now) }
{
    for part in parts {
        if !is_node(part) {
            return false;
        }
    }
    true
}

/// All leaves are Plain.
#[cycle(plain)]
#[tactic(auto, using(crate::specs::Tree::tree_forms))]
pub(crate) fn all_plain<N: Node>(net: &Net<N>) -> bool
    ensures { result ≡ all_plain N.does (tree_of net.now) }
{
    match net {
        Net::Leaf(node) => matches!(node.class(), Class::Plain),
        Net::Pipe(parts) | Net::Comb(parts) => each_plain(parts),
        Net::Farm { worker, .. } | Net::OFarm { worker, .. } | Net::Wrap { worker, .. } => {
            all_plain(worker)
        }
        Net::A2a {
            left_node,
            right_node,
            ..
        } => all_plain(left_node) && all_plain(right_node),
    }
}

#[cycle(plain)]
#[tactic(auto, using(crate::specs::Tree::tree_forms))]
fn each_plain<N: Node>(parts: &[Net<N>]) -> bool
    ensures { result ≡ each_plain N.does (trees_of parts.now) }
{
    for part in parts {
        if !all_plain(part) {
            return false;
        }
    }
    true
}

/// One Plain node, or several that run as one.
pub(crate) fn is_plain_node<N: Node>(net: &Net<N>) -> bool
    ensures { result ≡ is_plain_node N.does (tree_of net.now) }
{
    is_node(net) && all_plain(net)
}

/// A leaf whose class is Plain.
#[tactic(auto, using(crate::specs::Tree::tree_forms))]
pub(crate) fn is_plain_leaf<N: Node>(net: &Net<N>) -> bool
    ensures { result ≡ is_plain_leaf N.does (tree_of net.now) }
{
    match net {
        Net::Leaf(node) => matches!(node.class(), Class::Plain),
        _ => false,
    }
}

/// A leaf whose class is Ordered.
#[tactic(auto, using(crate::specs::Tree::tree_forms))]
pub(crate) fn is_ordered_leaf<N: Node>(net: &Net<N>) -> bool
    ensures { result ≡ is_ordered_leaf N.does (tree_of net.now) }
{
    match net {
        Net::Leaf(node) => matches!(node.class(), Class::Ordered),
        _ => false,
    }
}

/// The field of a Keyed leaf.
#[tactic(auto, using(crate::specs::Tree::tree_forms))]
pub(crate) fn leaf_key<N: Node>(net: &Net<N>) -> Option<u32>
    ensures { result ≡ leaf_key N.does (tree_of net.now) }
{
    let Net::Leaf(node) = net else {
        return None;
    };
    match node.class() {
        Class::Keyed(field) => Some(field),
        _ => None,
    }
}
