//! The tests of `ff_plan`, by its public calls alone.
#![tactic(auto)]

#[cfg(test)]
mod tests;
