//! The tests of `ff_stream`, by its public calls alone.
#![tactic(auto)]

#[cfg(test)]
mod tests;
