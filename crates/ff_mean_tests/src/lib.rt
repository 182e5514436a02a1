//! The tests of `ff_mean`, by its public calls alone.
#![tactic(auto)]

#[cfg(test)]
mod tests;
