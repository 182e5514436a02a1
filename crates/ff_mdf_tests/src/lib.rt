//! The tests of `ff_mdf`, by its public calls alone.
#![tactic(auto)]

#[cfg(test)]
mod tests;
