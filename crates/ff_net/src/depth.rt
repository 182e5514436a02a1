// How deep networks are.
ghost use Rattle.std.specs.Prelude.{◌≡◌};
ghost use Rattle.ff_rec.specs.Counts.{counted};
ghost use Rattle.ff_net.specs.Counts.{depth, deepest};
ghost use Rattle.ff_net.specs.Tree.{tree_of, trees_of};

use crate::Net;

impl<N> Net<N> {
    /// How many networks stand one in another, the whole one counted. The count stands still at its last value.
    pub fn depth(&self) -> usize
        ensures { result ≡ counted (depth (tree_of self.now)) }
    {
        depth(self)
    }
}

#[cycle(depths)]
#[tactic(auto, using(crate::specs::Tree::tree_forms))]
fn depth<N>(net: &Net<N>) -> usize
    ensures { result ≡ counted (depth (tree_of net.now)) }
{
    match net {
        Net::Leaf(_) => 1,
        Net::Pipe(parts) | Net::Comb(parts) => deepest(parts).saturating_add(1),
        Net::Farm { worker, .. } | Net::OFarm { worker, .. } | Net::Wrap { worker, .. } => {
            depth(worker).saturating_add(1)
        }
        Net::A2a {
            left_node,
            right_node,
            ..
        } => depth(left_node).max(depth(right_node)).saturating_add(1),
    }
}

// The depth of the deepest of these.
#[cycle(depths)]
#[tactic(auto, using(crate::specs::Tree::tree_forms))]
fn deepest<N>(parts: &[Net<N>]) -> usize
    ensures { result ≡ counted (deepest (trees_of parts.now)) }
{
    let mut most: usize = 0;
    for part in parts {
        most = most.max(depth(part));
    }
    most
}
