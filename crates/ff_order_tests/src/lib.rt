//! The tests of `ff_order`, by its public calls alone.
#![tactic(auto)]

#[cfg(test)]
mod tests;
