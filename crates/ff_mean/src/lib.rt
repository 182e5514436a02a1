//! Networks on one thread: what a network means for a list of records, computed.
#![tactic(auto)]

pub mod laws;
mod network;
mod outcome;
mod part;
mod pipeline;
mod rounds;
mod single;

pub use ff_node::Records;
pub use network::run_one;
pub use outcome::Outcome;
