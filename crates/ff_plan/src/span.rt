// Where a network is laid.

/// The edges that a network is laid between, and the number from which on its inner edges are numbered.
#[derive(Clone, Copy)]
pub(crate) struct Span {
    /// The edge that it reads.
    pub(crate) from: u32,
    /// The edge that it writes.
    pub(crate) to: u32,
    pub(crate) inner: u32,
}
