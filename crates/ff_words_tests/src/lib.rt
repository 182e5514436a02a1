//! The tests of `ff_words`, by its public calls alone.
#![tactic(auto)]

#[cfg(test)]
mod tests;
