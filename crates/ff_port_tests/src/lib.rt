//! The tests of `ff_port`, by its public calls alone.
#![tactic(auto)]

#[cfg(test)]
mod tests;
