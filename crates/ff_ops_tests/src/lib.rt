//! The tests of `ff_ops`, by its public calls alone.
#![tactic(auto)]

#[cfg(test)]
mod tests;
