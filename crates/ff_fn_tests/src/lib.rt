//! The tests of `ff_fn`, by its public calls alone.
#![tactic(auto)]

#[cfg(test)]
mod tests;
