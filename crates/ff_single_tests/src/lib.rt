//! The tests of `ff_single`, by its public calls alone.
#![tactic(auto)]

#[cfg(test)]
mod tests;
