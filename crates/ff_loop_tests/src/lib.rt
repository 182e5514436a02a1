//! The tests of `ff_loop`, by its public calls alone.
#![tactic(auto)]

#[cfg(test)]
mod tests;
