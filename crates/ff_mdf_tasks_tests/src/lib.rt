//! The tests of `ff_mdf_tasks`, by its public calls alone.
#![tactic(auto)]

#[cfg(test)]
mod tests;
