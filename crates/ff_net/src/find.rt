// The first place at which a network breaks a rule.
ghost use Rattle.std.specs.Prelude.{◌≡◌, ◌≤◌, ◌<◌, ◌+◌, ◌⊎◌, length};
ghost use Rattle.ff_net.specs.Tree.{tree_of, trees_of};
ghost use Rattle.ff_net.specs.Counts.{depth, deepest};
ghost use Rattle.ff_net.specs.Places.{all_in, all_piped, all_combed, child};
ghost use Rattle.ff_net.specs.Room.{HasRoom};
ghost use Rattle.ff_net.specs.Rules.{fails, places, first, breaks};

use crate::faults::fails;
use crate::rule::Rule;
use crate::spot::{Role, Spot};
use crate::{Net, Path, Version};
use ff_node::Node;

/// The first place at which a network breaks a rule.
pub(crate) fn first_place<N: Node>(rule: Rule, version: Version, net: &Net<N>) -> Option<Path>
    requires { HasRoom rule 0 (depth (tree_of net.now)) }
    ensures { result ≡ first (breaks N.does version rule (tree_of net.now)) }
{
    find(rule, version, Spot::whole(), &Path::top(), net)
}

// The first place in a network that stands there, at this place.
#[cycle(find)]
#[tactic(auto, using(crate::proofs::Search::search_steps))]
fn find<N: Node>(
    rule: Rule,
    version: Version,
    spot: Spot,
    path: &Path,
    net: &Net<N>,
) -> Option<Path>
    requires { HasRoom rule (length path.now) (depth (tree_of net.now)) }
    ensures { result ≡ first (places (fails N.does version rule) (all_in spot path.now (tree_of net.now))) }
{
    if fails(rule, version, spot, path, net) {
        return Some(path.same());
    }
    match net {
        Net::Leaf(_) => None,
        Net::Pipe(parts) => {
            let spot = spot.child(spot.role.of_part());
            find_piped(rule, version, spot, path, parts)
        }
        Net::Comb(parts) => {
            let spot = spot.child(Role::CombPart);
            find_combed(rule, version, spot, path, parts)
        }
        Net::Farm { worker, .. } => {
            let spot = spot.farm_worker();
            find(rule, version, spot, &path.down(1), worker)
        }
        Net::OFarm { worker, .. } => {
            let spot = spot.child(Role::OFarmWorker);
            find(rule, version, spot, &path.down(1), worker)
        }
        Net::A2a {
            left_node,
            route,
            right_node,
            ..
        } => {
            let left = spot.child(Role::LeftSet);
            if let Some(found) = find(rule, version, left, &path.down(1), left_node) {
                return Some(found);
            }
            let right = spot.child(Role::RightSet(*route));
            find(rule, version, right, &path.down(2), right_node)
        }
        Net::Wrap { worker, .. } => {
            let spot = spot.child(Role::WrapWorker);
            find(rule, version, spot, &path.down(1), worker)
        }
    }
}

// The first place in the parts of a pipe.
#[cycle(find)]
#[tactic(auto, using(crate::proofs::Search::search_steps))]
fn find_piped<N: Node>(
    rule: Rule,
    version: Version,
    spot: Spot,
    path: &Path,
    parts: &[Net<N>],
) -> Option<Path>
    requires { HasRoom rule (length path.now + 1) (deepest (trees_of parts.now)) }
    ensures { result ≡ first (places (fails N.does version rule) (all_piped spot path.now 1 (trees_of parts.now))) }
{
    let mut spot = spot;
    for (i, part) in parts.iter().enumerate() {
        if let Some(found) = find(rule, version, spot, &path.down(i + 1), part) {
            return Some(found);
        }
        spot = spot.past(part);
    }
    None
}

// The first place in the parts of a comb.
#[cycle(find)]
#[tactic(auto, using(crate::proofs::Search::search_steps))]
fn find_combed<N: Node>(
    rule: Rule,
    version: Version,
    spot: Spot,
    path: &Path,
    parts: &[Net<N>],
) -> Option<Path>
    requires { HasRoom rule (length path.now + 1) (deepest (trees_of parts.now)) }
    ensures { result ≡ first (places (fails N.does version rule) (all_combed spot path.now 1 (trees_of parts.now))) }
{
    for (i, part) in parts.iter().enumerate() {
        if let Some(found) = find(rule, version, spot, &path.down(i + 1), part) {
            return Some(found);
        }
    }
    None
}
