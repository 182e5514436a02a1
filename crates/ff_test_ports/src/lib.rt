//! Ports for the tests of units; no program uses them.
#![tactic(auto)]

mod ends;
mod fickle;
mod scripts;

pub use ends::{QueuePorts, ports_of, scripts_at};
pub use fickle::Fickle;
pub use scripts::{queue_of, script_of};
