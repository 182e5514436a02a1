// Where a unit stands.

/// Whether a unit goes on with its work.
#[derive(Clone, Copy, Debug, PartialEq, Eq)]
pub enum Mode {
    /// It takes records and works on them.
    Live,
    /// Its work has ended, and its Eos is held or was put.
    Shut,
    /// An Abort came, or memory ran out. Abort is held or was put.
    Cut,
}
