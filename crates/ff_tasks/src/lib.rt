//! Tasks by threads: what a scheduler hands out is answered by workers, each in a thread of its own. The calling
//! thread is the master.
#![tactic(auto)]

mod answering;
mod crew;
mod fault;
mod handler;
mod loop_job;
mod making;
mod run;
mod seat;
mod seats;
mod serving;
mod settling;
mod waiting;

pub use fault::LoopFault;
pub use handler::Handler;
pub use loop_job::LoopJob;
pub use run::run_loop;
