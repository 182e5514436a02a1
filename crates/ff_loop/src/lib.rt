//! Feedback: tasks that go round between a scheduler and workers. A scheduler says which tasks there are, a master keeps
//! which worker has which, and a worker of a network's wrap is a unit. No threads here.
#![tactic(auto)]

mod events;
mod log;
mod master;
mod numbers;
mod rounds;
mod scheduler;
mod work;
mod worker;
mod worklist;
mod wrap_master;

pub use events::Events;
pub use master::Master;
pub use rounds::Rounds;
pub use scheduler::Scheduler;
pub use worker::WrapWorker;
pub use worklist::Worklist;
pub use wrap_master::WrapMaster;
