// The nodes of a network, along its tree.
ghost use Rattle.std.specs.Prelude.{◌≡◌, ◌++◌, map, IfOk, OnOk};
ghost use Rattle.ff_net.specs.Nodes.{nodes_in, nodes_through};
ghost use Rattle.ff_net.specs.Tree.{tree_of, trees_of};

use crate::Net;
use ff_node::Node;
use ff_rec::NoMemory;
use std::alloc::Global;

impl<N: Node> Net<N> {
    /// Copies of its nodes in their opening states, one behind another: of each worker and of each set one.
    pub fn nodes(&self, alloc: Global) -> Result<Vec<N>, NoMemory>
        ensures { IfOk result (λ nodes. nodes.items ≡ map N.does.opening (nodes_in (tree_of self.now))) }
    {
        let mut nodes = Vec::new(alloc);
        add_nodes(self, &mut nodes)?;
        Ok(nodes)
    }
}

// Adds the nodes of a network to these.
#[cycle(nodes)]
#[tactic(auto, using(crate::proofs::NodeLists::node_lists))]
fn add_nodes<N: Node>(net: &Net<N>, nodes: &mut Vec<N>) -> Result<(), NoMemory>
    ensures { OnOk result
        (nodes.new.items ≡ nodes.old.items ++ map N.does.opening (nodes_in (tree_of net.now))) }
{
    match net {
        Net::Leaf(node) => {
            nodes.push(node.copy()?)?;
            Ok(())
        }
        Net::Pipe(parts) | Net::Comb(parts) => add_parts(parts, nodes),
        Net::Farm { worker, .. } | Net::OFarm { worker, .. } | Net::Wrap { worker, .. } => {
            add_nodes(worker, nodes)
        }
        Net::A2a {
            left_node,
            right_node,
            ..
        } => {
            add_nodes(left_node, nodes)?;
            add_nodes(right_node, nodes)
        }
    }
}

// Adds those of several networks.
#[cycle(nodes)]
#[tactic(auto, using(crate::proofs::NodeLists::node_lists))]
fn add_parts<N: Node>(parts: &[Net<N>], nodes: &mut Vec<N>) -> Result<(), NoMemory>
    ensures { OnOk result
        (nodes.new.items ≡ nodes.old.items ++ map N.does.opening (nodes_through (trees_of parts.now))) }
{
    for part in parts {
        add_nodes(part, nodes)?;
    }
    Ok(())
}
