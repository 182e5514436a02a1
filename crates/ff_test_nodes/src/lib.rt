//! Nodes that the tests of other crates put into networks; no program uses them.
#![tactic(auto)]

mod gate;
mod silent;

pub use gate::Gate;
pub use silent::Silent;

#[cfg(test)]
mod tests;
