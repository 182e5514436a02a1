//! The tests of `ff_tasks`, by its public calls alone, with a scheduler of their own.
#![tactic(auto)]

mod brood;
#[cfg(test)]
mod tests;

pub use brood::Brood;
