//! The command `soak`, which runs a network over records that it makes.
#![tactic(auto)]

mod soak;

pub use soak::run_soak;
