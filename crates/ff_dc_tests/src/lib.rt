//! The tests of `ff_dc`, by its public calls alone.
#![tactic(auto)]

#[cfg(test)]
mod tests;
