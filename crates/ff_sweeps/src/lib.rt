//! Sweeps over the units of a network on one thread, the law that they never get stuck, and runs over a source and a sink
//! that are made of them.
#![tactic(auto)]

pub mod laws;
mod rejects;
mod run;
mod sweeping;

pub use ff_single::{Ending, Report, RunFault, Stop};
pub use run::run_swept;
pub use sweeping::{Sweeps, run_sweeps};
