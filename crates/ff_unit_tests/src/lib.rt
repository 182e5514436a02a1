//! The tests of `ff_unit`, by its public calls alone.
#![tactic(auto)]

#[cfg(test)]
mod tests;
