// How records are dealt.

/// By what a deal chooses the out of a record, and whether each record is a group of its own, with a Mark behind it.
#[derive(Clone, Copy, Debug, PartialEq, Eq)]
pub enum Dealing {
    /// One out after the other.
    InTurn,
    /// The first out with room.
    OnDemand,
    /// The out of what this field holds.
    ByKey(u32),
    /// One out after the other, each record in a group of its own.
    GroupsInTurn,
    /// The first out with room, each record in a group of its own. The outs that were chosen are told on one out more, the last.
    GroupsOnDemand,
}
