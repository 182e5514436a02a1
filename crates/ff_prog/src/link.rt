// Where operands get their values from.

/// The task that gave a name its value last.
#[derive(Clone, Copy, Debug, PartialEq, Eq)]
pub struct Link {
    /// The task's statement, counted from 0.
    pub task: u32,
    /// Whether the name is the second that the task writes.
    pub second: bool,
}

/// The links of a task's operands. A number has none.
#[derive(Clone, Copy, Debug, PartialEq, Eq)]
pub struct Links {
    pub a: Option<Link>,
    pub b: Option<Link>,
    pub c: Option<Link>,
}
