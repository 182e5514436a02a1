// The network at a place.
ghost use Rattle.std.specs.Prelude.{◌≡◌, None, Some, MatchOption};
ghost use Rattle.ff_net.specs.At.{child_of, net_at, part_of, worker_of};
ghost use Rattle.ff_net.specs.Tree.{tree_of, trees_of};

use crate::{Net, Path};

impl<N> Net<N> {
    /// The network that stands at this place in it, if one does.
    pub fn at(&self, path: &Path) -> Option<&Net<N>>
        ensures { MatchOption result (net_at (tree_of self.now) path.now ≡ None)
            (λ net. net_at (tree_of self.now) path.now ≡ Some (tree_of net.now)) }
    {
        let mut net = self;
        for k in 0..path.len() {
            net = child_of(net, path.child(k))?;
        }
        Some(net)
    }
}

// Child `k`, counted from 1.
#[tactic(auto, using(crate::specs::Tree::tree_forms))]
fn child_of<N>(net: &Net<N>, k: usize) -> Option<&Net<N>>
    ensures { MatchOption result (child_of (tree_of net.now) k ≡ None)
        (λ child. child_of (tree_of net.now) k ≡ Some (tree_of child.now)) }
{
    match net {
        Net::Leaf(_) => None,
        Net::Pipe(parts) | Net::Comb(parts) => part_of(parts, k),
        Net::Farm { worker, .. } | Net::OFarm { worker, .. } | Net::Wrap { worker, .. } => {
            worker_of(worker, k)
        }
        Net::A2a {
            left_node,
            right_node,
            ..
        } => match k {
            1 => Some(left_node),
            2 => Some(right_node),
            _ => None,
        },
    }
}

// Child `k` of a form with one child.
fn worker_of<N>(worker: &Net<N>, k: usize) -> Option<&Net<N>>
    ensures { MatchOption result (worker_of (tree_of worker.now) k ≡ None)
        (λ child. worker_of (tree_of worker.now) k ≡ Some (tree_of child.now)) }
{
    if k == 1 { Some(worker) } else { None }
}

// Child `k` among the parts of a pipe or comb.
fn part_of<N>(parts: &[Net<N>], k: usize) -> Option<&Net<N>>
    ensures { MatchOption result (part_of 1 (trees_of parts.now) k ≡ None)
        (λ child. part_of 1 (trees_of parts.now) k ≡ Some (tree_of child.now)) }
{
    for (i, part) in parts.iter().enumerate() {
        if i + 1 == k {
            return Some(part);
        }
    }
    None
}
