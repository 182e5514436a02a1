// Which forms stand in a network.
ghost use Rattle.std.specs.Prelude.{◌≡◌};
ghost use Rattle.ff_net.specs.Tree.{tree_of, trees_of};
ghost use Rattle.ff_net.specs.Forms.{has_wrap, any_wrap, has_copies, any_copies};
ghost use Rattle.ff_net.specs.Forms.{is_unordered, any_unordered, has_choice, any_choice};

use crate::{Net, Route, Sched};

/// Whether a wrap stands in it.
#[cycle(wraps)]
#[tactic(auto, using(crate::specs::Tree::tree_forms))]
pub(crate) fn has_wrap<N>(net: &Net<N>) -> bool
    ensures { result ≡ has_wrap (tree_of net.now) }
{
    match net {
        Net::Leaf(_) => false,
        Net::Pipe(parts) | Net::Comb(parts) => any_wrap(parts),
        Net::Farm { worker, .. } | Net::OFarm { worker, .. } => has_wrap(worker),
        Net::A2a {
            left_node,
            right_node,
            ..
        } => has_wrap(left_node) || has_wrap(right_node),
        Net::Wrap { .. } => true,
    }
}

#[cycle(wraps)]
#[tactic(auto, using(crate::specs::Tree::tree_forms))]
fn any_wrap<N>(parts: &[Net<N>]) -> bool
    ensures { result ≡ any_wrap (trees_of parts.now) }
{
    for part in parts {
        if has_wrap(part) {
            return true;
        }
    }
    false
}

/// Whether a farm, an ordered farm, an all-to-all or a wrap stands in it.
#[cycle(copied)]
#[tactic(auto, using(crate::specs::Tree::tree_forms))]
pub(crate) fn has_copies<N>(net: &Net<N>) -> bool
    ensures { result ≡ has_copies (tree_of net.now) }
{
    match net {
        Net::Leaf(_) => false,
        Net::Pipe(parts) | Net::Comb(parts) => any_copies(parts),
        Net::Farm { .. } | Net::OFarm { .. } | Net::A2a { .. } | Net::Wrap { .. } => true,
    }
}

#[cycle(copied)]
#[tactic(auto, using(crate::specs::Tree::tree_forms))]
fn any_copies<N>(parts: &[Net<N>]) -> bool
    ensures { result ≡ any_copies (trees_of parts.now) }
{
    for part in parts {
        if has_copies(part) {
            return true;
        }
    }
    false
}

/// Whether a farm, an all-to-all or a wrap stands in it.
#[cycle(unordered)]
#[tactic(auto, using(crate::specs::Tree::tree_forms))]
pub(crate) fn is_unordered<N>(net: &Net<N>) -> bool
    ensures { result ≡ is_unordered (tree_of net.now) }
{
    match net {
        Net::Leaf(_) => false,
        Net::Pipe(parts) | Net::Comb(parts) => any_unordered(parts),
        Net::OFarm { worker, .. } => is_unordered(worker),
        Net::Farm { .. } | Net::A2a { .. } | Net::Wrap { .. } => true,
    }
}

#[cycle(unordered)]
#[tactic(auto, using(crate::specs::Tree::tree_forms))]
fn any_unordered<N>(parts: &[Net<N>]) -> bool
    ensures { result ≡ any_unordered (trees_of parts.now) }
{
    for part in parts {
        if is_unordered(part) {
            return true;
        }
    }
    false
}

/// Whether a wrap, or something that goes on demand, stands in it.
#[cycle(choices)]
#[tactic(auto, using(crate::specs::Tree::tree_forms))]
pub(crate) fn has_choice<N>(net: &Net<N>) -> bool
    ensures { result ≡ has_choice (tree_of net.now) }
{
    match net {
        Net::Leaf(_) => false,
        Net::Pipe(parts) | Net::Comb(parts) => any_choice(parts),
        Net::Farm { sched, worker, .. } | Net::OFarm { sched, worker, .. } => {
            matches!(sched, Sched::Od) || has_choice(worker)
        }
        Net::A2a {
            left_node,
            route,
            right_node,
            ..
        } => matches!(route, Route::Od) || has_choice(left_node) || has_choice(right_node),
        Net::Wrap { .. } => true,
    }
}

#[cycle(choices)]
#[tactic(auto, using(crate::specs::Tree::tree_forms))]
fn any_choice<N>(parts: &[Net<N>]) -> bool
    ensures { result ≡ any_choice (trees_of parts.now) }
{
    for part in parts {
        if has_choice(part) {
            return true;
        }
    }
    false
}
