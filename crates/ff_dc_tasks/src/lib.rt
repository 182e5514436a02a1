//! Divide and conquer by threads: a scheduler that divides as it goes, and the workers' handler.
#![tactic(auto)]

mod divider;
mod functions;
mod halves;
mod handler;
mod place;
mod plain;
mod run;
mod task;
mod todo;
mod walk;

pub use divider::Divider;
pub use functions::RuleFunctions;
pub use handler::DcHandler;
pub use plain::PlainFunctions;
pub use run::run_dc;
pub use task::DcTask;
