//! The tests of `ff_io`, by its public calls alone.
#![tactic(auto)]

#[cfg(test)]
mod tests;
