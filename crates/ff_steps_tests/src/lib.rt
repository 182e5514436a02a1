//! The tests of `ff_steps` and `ff_sweeps`, by their public calls alone.
#![tactic(auto)]

#[cfg(test)]
mod tests;
