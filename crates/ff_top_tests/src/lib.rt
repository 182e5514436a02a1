//! The tests of `ff_top`, by its public calls alone.
#![tactic(auto)]

#[cfg(test)]
mod tests;
