// Whether one network in a network breaks a rule.
ghost use Rattle.std.specs.Prelude.{◌≡◌};
ghost use Rattle.ff_net.specs.Tree.{tree_of};
ghost use Rattle.ff_net.specs.Places.{seen};
ghost use Rattle.ff_net.specs.RuleTests.{is_off, misses, has_bad_parts, has_bad_workers, has_many_units, has_many_edges, is_bad_comb_part, is_bad_in_farm, is_bad_ofarm_worker, is_bad_set, is_bad_behind, is_bad_key, is_bad_wrap_worker, is_bad_wrap, has_bad_field};
ghost use Rattle.ff_net.specs.Rules.{fails};

use crate::counts::{edges, units};
use crate::leaves::{
    all_plain, is_leaf, is_ordered_leaf, is_pipeline, is_plain_leaf, is_plain_node, leaf_key,
};
use crate::limits::{MOST_DEPTH, MOST_EDGES, MOST_PARTS, most_units};
use crate::rule::Rule;
use crate::spot::{Role, Spot};
use crate::{Net, Path, Route, Version};
use ff_node::Node;

/// Whether a rule fails at this network, which stands there.
pub(crate) fn fails<N: Node>(
    rule: Rule,
    version: Version,
    spot: Spot,
    path: &Path,
    net: &Net<N>,
) -> bool
    ensures { result ≡ fails N.does version rule (seen spot path.now (tree_of net.now)) }
{
    match rule {
        Rule::Depth => path.len() == MOST_DEPTH,
        Rule::Parts => has_bad_parts(net),
        Rule::Workers => has_bad_workers(net),
        Rule::Units => has_many_units(version, spot.role, net),
        Rule::Edges => has_many_edges(spot.role, net),
        Rule::CombParts => is_bad_comb_part(spot.role, net),
        Rule::FarmLeaves => is_bad_in_farm(spot.in_farm, net),
        Rule::OFarmWorkers => is_bad_ofarm_worker(spot.role, net),
        Rule::Sets => is_bad_set(spot.role, net),
        Rule::Order => is_bad_behind(spot.behind, net),
        Rule::Keys => is_bad_key(spot.role, net),
        Rule::WrapWorkers => is_bad_wrap_worker(spot.role, net),
        Rule::WrapPlaces => is_bad_wrap(spot.role, net),
        Rule::FieldNumbers => has_bad_field(net),
    }
}

// A number of workers, of copies or of a field has to be one of those that may be.
fn is_off(n: u32) -> bool
    ensures { result ≡ is_off n }
{
    n == 0 || MOST_PARTS < n
}

#[tactic(auto, using(crate::proofs::CountLaws::counted_parts))]
fn has_bad_parts<N>(net: &Net<N>) -> bool
    ensures { result ≡ has_bad_parts (tree_of net.now) }
{
    match net {
        Net::Pipe(parts) | Net::Comb(parts) => parts.is_empty()
            || parts.len() > MOST_PARTS as usize,
        _ => false,
    }
}

#[tactic(auto, using(crate::specs::Tree::tree_forms))]
fn has_bad_workers<N>(net: &Net<N>) -> bool
    ensures { result ≡ has_bad_workers (tree_of net.now) }
{
    match net {
        Net::Farm { workers, .. } | Net::OFarm { workers, .. } | Net::Wrap { workers, .. } => {
            is_off(*workers)
        }
        Net::A2a { left, right, .. } => is_off(*left) || is_off(*right),
        _ => false,
    }
}

fn has_many_units<N>(version: Version, role: Role, net: &Net<N>) -> bool
    ensures { result ≡ has_many_units version role (tree_of net.now) }
{
    match role {
        Role::Whole => most_units(version) < units(net),
        _ => false,
    }
}

fn has_many_edges<N>(role: Role, net: &Net<N>) -> bool
    ensures { result ≡ has_many_edges role (tree_of net.now) }
{
    match role {
        Role::Whole => MOST_EDGES < edges(net),
        _ => false,
    }
}

fn is_bad_comb_part<N>(role: Role, net: &Net<N>) -> bool
    ensures { result ≡ is_bad_comb_part role (tree_of net.now) }
{
    match role {
        Role::CombPart => !is_leaf(net),
        _ => false,
    }
}

fn is_bad_in_farm<N: Node>(in_farm: bool, net: &Net<N>) -> bool
    ensures { result ≡ is_bad_in_farm N.does in_farm (tree_of net.now) }
{
    in_farm && is_leaf(net) && !is_plain_leaf(net)
}

fn is_bad_ofarm_worker<N: Node>(role: Role, net: &Net<N>) -> bool
    ensures { result ≡ is_bad_ofarm_worker N.does role (tree_of net.now) }
{
    match role {
        Role::OFarmWorker => !(is_pipeline(net) && all_plain(net)),
        _ => false,
    }
}

fn is_bad_set<N: Node>(role: Role, net: &Net<N>) -> bool
    ensures { result ≡ is_bad_set N.does role (tree_of net.now) }
{
    match role {
        Role::LeftSet => !is_plain_node(net),
        Role::RightSet(_) => !(is_plain_node(net) || leaf_key(net).is_some()),
        _ => false,
    }
}

fn is_bad_behind<N: Node>(behind: bool, net: &Net<N>) -> bool
    ensures { result ≡ is_bad_behind N.does behind (tree_of net.now) }
{
    behind && is_ordered_leaf(net)
}

fn is_bad_key<N: Node>(role: Role, net: &Net<N>) -> bool
    ensures { result ≡ is_bad_key N.does role (tree_of net.now) }
{
    match role {
        Role::RightSet(route) => misses(route, leaf_key(net)),
        _ => false,
    }
}

// Whether a route goes by another field than this, or by none.
fn misses(route: Route, key: Option<u32>) -> bool
    ensures { result ≡ misses route key }
{
    match (route, key) {
        (_, None) => false,
        (Route::By(field), Some(key)) => field != key,
        (_, Some(_)) => true,
    }
}

fn is_bad_wrap_worker<N: Node>(role: Role, net: &Net<N>) -> bool
    ensures { result ≡ is_bad_wrap_worker N.does role (tree_of net.now) }
{
    match role {
        Role::WrapWorker => !is_plain_node(net),
        _ => false,
    }
}

#[tactic(auto, using(crate::specs::Tree::tree_forms))]
fn is_bad_wrap<N>(role: Role, net: &Net<N>) -> bool
    ensures { result ≡ is_bad_wrap role (tree_of net.now) }
{
    match role {
        Role::Whole | Role::TopPart => false,
        _ => matches!(net, Net::Wrap { .. }),
    }
}

#[tactic(auto, using(crate::specs::Tree::tree_forms))]
fn has_bad_field<N>(net: &Net<N>) -> bool
    ensures { result ≡ has_bad_field (tree_of net.now) }
{
    match net {
        Net::A2a {
            route: Route::By(field),
            ..
        } => is_off(*field),
        Net::Wrap { test, .. } => is_off(test.field),
        _ => false,
    }
}
