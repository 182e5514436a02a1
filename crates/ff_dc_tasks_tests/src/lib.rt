//! The tests of `ff_dc_tasks`, by its public calls alone.
#![tactic(auto)]

#[cfg(test)]
mod tests;
