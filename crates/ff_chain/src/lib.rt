//! An unbounded channel between two threads: a chain of rings, whose reading ends go to the reader
//! over one more ring, the spine. Its memory is what the reader hasn't taken yet.
#![tactic(auto)]

mod blank;
mod chain_in;
mod chain_out;
mod link;
mod making;
mod pair;
mod reader;
mod reading;
mod settling;
mod writer;
mod writing;

pub use chain_in::ChainIn;
pub use chain_out::ChainOut;
pub use pair::{chain, settle_chain};
