//! What a node is: what it does with records, what it promises by its class, and what its calls gather.
#![tactic(auto)]

mod class;
mod comb;
pub mod laws;
mod node;
mod nodes;
mod parts;
mod running;
mod sends;

pub use class::{Class, Next};
pub use comb::Comb;
pub use ff_rec::{Cmp, Records};
pub use node::Node;
pub use running::{node_end, node_step};
pub use sends::Sends;
