// What marks and words of a text may mean.
ghost use Rattle.std.specs.Prelude.{◌≡◌, [], ◌∷◌, ◌++◌, map, IfSome, OnOk, MatchOption, Some, None};
ghost use Rattle.ff_net.specs.Tree.{tree_of};
ghost use Rattle.ff_text.specs.Grammar.{IsNet, most_forms};
ghost use Rattle.ff_text.specs.Names.{net_named, AreNets};
ghost use Rattle.ff_text.specs.Seen.{name_of, context_of, names_of};

use ff_net::{Net, Version};
use ff_ops::Op;
use ff_rec::NoMemory;
use std::alloc::Global;

/// A word and the network that it stands for.
#[derive(Drop)]
pub struct NamedNet {
    pub word: Vec<u8>,
    pub net: Net<Op>,
}

/// The version of a text, and the names that stand for networks in it.
#[derive(Drop)]
pub struct Context {
    pub(crate) version: Version,
    names: Vec<NamedNet>,
}

impl Context {
    /// No word stands for a network yet.
    pub fn new(alloc: Global, version: Version) -> Context
        ensures { context_of result ≡ record { version = version; names = [] } }
    {
        Context {
            version,
            names: Vec::new(alloc),
        }
    }

    /// The network of a word.
    pub(crate) fn net(&self, word: &[u8]) -> Option<&Net<Op>>
        requires { AreNets (names_of self.now) }
        ensures found { MatchOption result (net_named (names_of self.now) word.now ≡ None)
            (λ net. net_named (names_of self.now) word.now ≡ Some (tree_of net.now)) }
        ensures fits { IfSome result (λ net. IsNet (tree_of net.now) most_forms) }
    {
        net_of(&self.names, word)
    }

    /// Lets a word stand for a network, where no earlier name has this word.
    pub fn name(&mut self, named: NamedNet) -> Result<(), NoMemory>
        ensures version { self.new.version ≡ self.old.version }
        ensures names { OnOk result
            (names_of self.new ≡ names_of self.old ++ name_of named ∷ []) }
        ensures nets { AreNets (names_of self.old) → IsNet (tree_of named.net) most_forms
            → OnOk result (AreNets (names_of self.new)) }
    {
        self.names.push(named)?;
        Ok(())
    }
}

// The network of a word among these names.
fn net_of<'a>(names: &'a [NamedNet], word: &[u8]) -> Option<&'a Net<Op>>
    requires { AreNets (map name_of names.now) }
    ensures found { MatchOption result (net_named (map name_of names.now) word.now ≡ None)
        (λ net. net_named (map name_of names.now) word.now ≡ Some (tree_of net.now)) }
    ensures fits { IfSome result (λ net. IsNet (tree_of net.now) most_forms) }
{
    for named in names {
        if named.word.as_slice() == word {
            return Some(&named.net);
        }
    }
    None
}
