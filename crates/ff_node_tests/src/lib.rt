//! The tests of `ff_node`, by its public calls alone.
#![tactic(auto)]

#[cfg(test)]
mod tests;
