//! The units of an ordered farm: what deals records out in groups, and what brings the groups back into the order of the records.
#![tactic(auto)]

mod odeal;
mod omerge;
mod order;

pub use odeal::ODeal;
pub use omerge::OMerge;
pub use order::Order;
