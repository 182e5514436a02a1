// The edges at the ins or outs of a unit.
ghost use Rattle.std.specs.Prelude.{◌≡◌};

use std::marker::Model;

/// The edges at the ins or at the outs of a unit, by their numbers, in the order of its ports.
#[derive(Debug, Drop)]
pub struct EdgeList {
    edges: Vec<u32>,
}

impl Model for EdgeList {
    ghost use Rattle.std.specs.Prelude.{ℕ, List};

    ghost Value = { List ℕ };

    ghost view = { λ list. list.edges.items };
}

impl EdgeList {
    /// These edges.
    pub(crate) fn new(edges: Vec<u32>) -> EdgeList
        ensures { result ≡ edges.items }
    {
        EdgeList { edges }
    }

    /// The numbers.
    pub fn as_slice(&self) -> &[u32]
        ensures { result.now ≡ self.now }
    {
        &self.edges
    }
}
