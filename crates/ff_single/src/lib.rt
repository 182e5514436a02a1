//! Networks over a source and a sink on the calling thread: record by record where a network has no feedback, and else the
//! whole input first.
#![tactic(auto)]

mod groups;
mod meaning;
mod pipeline;
mod run;
mod solve;
mod whole;

pub use ff_stream::{Ending, Report, RunFault, Stop};
pub use run::run_single;
pub use solve::Solve;
pub use whole::run_solved;
