//! The ends of channels as a unit sees them, and the queue that stands between two units on one thread.
#![tactic(auto)]

mod answers;
mod channel;
mod own_ports;
mod past;
mod ports;
mod queue;

pub use answers::{End, Put, Step};
pub use channel::{Inbox, Outbox};
pub use ff_rec::Msg;
pub use own_ports::OwnPorts;
pub use past::Past;
pub use ports::Ports;
pub use queue::PlainQueue;
