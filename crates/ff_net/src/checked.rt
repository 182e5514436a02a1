// Networks that keep all rules.
ghost use Rattle.std.specs.Prelude.{◌≡◌, None, IfOk};
ghost use Rattle.ff_net.specs.Forms.{has_wrap, has_copies, is_ordered, sweeps};
ghost use Rattle.ff_net.specs.Tree.{tree_of};
ghost use Rattle.ff_net.specs.Rules.{first_fault};
ghost use Rattle.ff_net.specs.Verdict.{fault_in};

use crate::fault::first_fault;
use crate::forms::{has_choice, has_copies, has_wrap, is_unordered};
use crate::{Net, RuleFault, Version};
use ff_node::Node;

/// A network that keeps all rules, with the limits of its version.
#[derive(Drop)]
pub struct Checked<N: Node> {
    net: Net<N>,
    version: Version,
    ghost kept: { first_fault N.does version (tree_of net) ≡ None },
}

/// Takes a network that keeps all rules as it is, and refuses any other with the lowest rule that it breaks and the first
/// place at which it does. The refused network is given up.
pub fn check<N: Node>(net: Net<N>, version: Version) -> Result<Checked<N>, RuleFault>
    ensures fault { fault_in result ≡ first_fault N.does version (tree_of net) }
    ensures given { IfOk result (λ c. (c.net ≡ net) × (c.version ≡ version)) }
{
    match first_fault(&net, version) {
        Some(fault) => Err(fault),
        None => Ok(Checked { net, version }),
    }
}

impl<N: Node> Checked<N> {
    /// The network.
    pub fn net(&self) -> &Net<N>
        ensures net { result.now ≡ self.now.net }
        ensures kept { first_fault N.does self.now.version (tree_of self.now.net) ≡ None }
    {
        &self.net
    }

    /// The version by whose limits it was checked.
    pub fn version(&self) -> Version
        ensures { result ≡ self.now.version }
    {
        self.version
    }

    /// Whether what comes out has the order of what went in: no farm, all-to-all or wrap stands in it.
    pub fn is_ordered(&self) -> bool
        ensures { result ≡ is_ordered (tree_of self.now.net) }
    {
        !is_unordered(&self.net)
    }

    /// Whether a wrap stands in it.
    pub fn has_wrap(&self) -> bool
        ensures { result ≡ has_wrap (tree_of self.now.net) }
    {
        has_wrap(&self.net)
    }

    /// Whether some of its nodes are copied: a farm, an ordered farm, an all-to-all or a wrap stands in it.
    pub fn has_copies(&self) -> bool
        ensures { result ≡ has_copies (tree_of self.now.net) }
    {
        has_copies(&self.net)
    }

    /// Whether it can be run by sweeps over its units: no wrap stands in it, and nothing goes on demand.
    pub fn sweeps(&self) -> bool
        ensures { result ≡ sweeps (tree_of self.now.net) }
    {
        !has_choice(&self.net)
    }
}
