//! The tests of `ff_stencil`, by its public calls alone.
#![tactic(auto)]

#[cfg(test)]
mod tests;
