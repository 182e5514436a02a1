//! Networks by threads: each unit runs in a thread of its own, over rings.
#![tactic(auto)]

mod bells;
mod board;
mod caller;
mod crew;
mod delivery;
mod fault;
mod finishing;
mod laws;
mod line;
mod linking;
mod making;
mod net_job;
mod prepared;
mod report;
mod run;
mod running;
mod settling;
mod slots;
mod starting;
mod stepping;

pub use delivery::Delivery;
pub use fault::NetFault;
pub use ff_steps::NetUnit;
pub use net_job::NetJob;
pub use run::run_net;
