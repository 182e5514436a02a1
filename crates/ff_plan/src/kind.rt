// What the units and edges of a plan are.

/// How messages go along an edge.
#[derive(Clone, Copy, Debug, PartialEq, Eq)]
pub enum Queue {
    /// Over a ring of so many slots.
    Ring,
    /// Over rings of so many slots, as many as are needed.
    Chain,
}

/// Who stands at an end of an edge.
#[derive(Clone, Copy, Debug, PartialEq, Eq)]
pub enum Party {
    /// The caller, who feeds the first edge and empties the last one.
    Caller,
    /// The unit with this number, counted from 0.
    Unit(u32),
}

/// What a unit does.
#[derive(Clone, Copy, Debug, PartialEq, Eq)]
pub enum UnitKind {
    /// A node, or a comb of nodes.
    Stage,
    /// Hands its records out in turn.
    DealRr,
    /// Hands each record to an out that has room.
    DealOd,
    /// Hands each record out by the content of this field, counted from 1.
    DealBy(u32),
    /// Brings the records of its ins together, as they come.
    Merge,
    /// Hands its records out in turn, each as a group of its own.
    ODealRr,
    /// Hands each record to an out that has room, as a group of its own, and tells its picks on its last out.
    ODealOd,
    /// Brings groups together in turn.
    OMergeTurn,
    /// Brings groups together in the order of the picks on its last in.
    OMergePick,
    /// Hands tasks to the workers of a wrap, and takes their answers.
    Master,
    /// A node, or a comb of nodes, that answers tasks.
    Worker,
}
