//! Macro dataflow by threads: a task of a program is given to a worker as soon as each name that it
//! reads has its value. What comes out is what one thread gives.
#![tactic(auto)]

mod handler;
mod queue;
mod readers;
mod run;
mod scheduler;
mod task;
mod waking;

pub use handler::MdfHandler;
pub use run::{MdfJob, run_program};
pub use scheduler::MdfScheduler;
pub use task::MdfTask;
