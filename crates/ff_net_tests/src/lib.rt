//! The tests of `ff_net`, by its public calls alone.
#![tactic(auto)]

#[cfg(test)]
mod tests;
