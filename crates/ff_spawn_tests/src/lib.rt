//! The tests of `ff_spawn`, by its public calls alone.
#![tactic(auto)]

#[cfg(test)]
mod tests;
