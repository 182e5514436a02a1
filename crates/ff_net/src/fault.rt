// Why a network is refused.
ghost use Rattle.std.specs.Prelude.{◌≡◌, ◌≤◌};
ghost use Rattle.ff_net.specs.Counts.{depth};
ghost use Rattle.ff_net.specs.Rules.{number_of, first, first_fault, faults_of};
ghost use Rattle.ff_net.specs.Tree.{tree_of};
ghost use Rattle.ff_net.specs.Verdict.{named};

use crate::find::first_place;
use crate::rule::{LATER_RULES, Rule};
use crate::{Net, Path, Version};
use ff_node::Node;

/// A rule that a network breaks: the lowest, with the first place at which it does, parents before children.
#[derive(Debug, Drop)]
pub struct RuleFault {
    /// The rule's number, from 1.
    pub rule: u8,
    pub path: Path,
}

// That rule, broken there.
fn fault(rule: Rule, path: Path) -> RuleFault
    ensures { result ≡ record { rule = number_of rule; path = path } }
{
    RuleFault {
        rule: rule.number(),
        path,
    }
}

/// The first fault of a network by all rules. The depth comes first: no path to a deeper place is asked for then.
pub(crate) fn first_fault<N: Node>(net: &Net<N>, version: Version) -> Option<RuleFault>
    ensures { named result ≡ first_fault N.does version (tree_of net.now) }
{
    if let Some(path) = first_place(Rule::Depth, version, net) {
        return Some(fault(Rule::Depth, path));
    }
    fault_among(&LATER_RULES, net, version)
}

// The first fault by these rules.
fn fault_among<N: Node>(rules: &[Rule], net: &Net<N>, version: Version) -> Option<RuleFault>
    requires { depth (tree_of net.now) ≤ 16 }
    ensures { named result ≡ first (faults_of N.does version (tree_of net.now) rules.now) }
{
    for rule in rules {
        if let Some(path) = first_place(*rule, version, net) {
            return Some(fault(*rule, path));
        }
    }
    None
}
