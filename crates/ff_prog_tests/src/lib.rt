//! The tests of `ff_prog`, by its public calls alone.
#![tactic(auto)]

#[cfg(test)]
mod tests;
