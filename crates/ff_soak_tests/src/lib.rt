//! The tests of `ff_soak`, by its public calls alone.
#![tactic(auto)]

#[cfg(test)]
mod tests;
