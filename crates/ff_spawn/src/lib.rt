//! Jobs that run in threads of their own, and what starts and finishes them, with three counts.
#![tactic(auto)]

mod fault;
mod job;
mod refuse_at;
mod runner;
mod running_jobs;
mod spawner;
mod started;
mod threads;

pub use fault::{Denial, StartFault};
pub use job::Job;
pub use refuse_at::RefuseAt;
pub use running_jobs::RunningJobs;
pub use spawner::{Counting, Refusals, Spawner};
pub use started::Started;
pub use threads::Threads;
