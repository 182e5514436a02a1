//! The tests of `ff_rec`, by its public calls alone.
#![tactic(auto)]

#[cfg(test)]
mod tests;
