// What a run gives.
use ff_node::Records;

/// What a run of a network on one thread gives.
#[derive(Debug, Drop)]
pub enum Outcome {
    Done {
        /// What the network sends, in the order of its definition.
        sent: Records,
        /// How many records its nodes rejected, up to 2^64 - 1.
        rejected: u64,
        /// These records, where they were to be kept.
        kept: Records,
    },
    /// A wrap has more tasks than its limit.
    Over,
}
