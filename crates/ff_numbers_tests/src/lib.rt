//! Tests of `ff_numbers`.
#![tactic(auto)]

#[cfg(test)]
mod tests;
