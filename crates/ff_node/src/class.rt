// What is promised of a node, and whether it goes on.

/// What is promised of a node, so that a network may hand its records out to several copies of it.
#[derive(Clone, Copy, Debug, PartialEq, Eq)]
pub enum Class {
    /// The state never matters, it never ends by itself, and sends nothing at the end.
    Plain,
    /// Nothing is promised: the order of the records may matter.
    Ordered,
    /// It sends at the end alone, and the order of the records doesn't matter.
    Fold,
    /// A fold whose answer is that of the records of each content of this field alone.
    Keyed(u32),
}

/// Whether a node takes its next record or ends.
#[derive(Clone, Copy, Debug, PartialEq, Eq)]
pub enum Next {
    GoOn,
    Eos,
}

impl Next {
    ghost use Rattle.std.specs.Prelude.{◌≡◌};
    ghost use Rattle.ff_node.specs.Next.{is_eos};

    /// Whether the node ends.
    pub fn is_eos(self) -> bool
        ensures { result ≡ is_eos self }
    {
        match self {
            Next::GoOn => false,
            Next::Eos => true,
        }
    }
}
