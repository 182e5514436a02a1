// Whose group comes next.

/// By what an ordered merge knows which in holds the next group.
#[derive(Clone, Copy, Debug, PartialEq, Eq)]
pub enum Order {
    /// One in after the other.
    InTurn,
    /// As the last in tells.
    ByPick,
}
