// When finished records go on.

/// When a stage hands over what its node sent. Whatever is chosen, the same records come; so no clause hangs on it but
/// that of the rings.
#[derive(Clone, Copy, Debug, PartialEq, Eq)]
pub enum Delivery {
    /// As soon as the next unit is seen to have taken all else. So a node may take long for its next record, or wait until another
    /// node has begun the one before.
    Prompt,
    /// In full bundles, and what is left of them before the unit pauses. It costs less where a node takes next to no time for a record,
    /// but a node that waits for another one may wait for ever.
    Gathered,
}
