//! What every command of a call stands on: the machine that it meets and what is seen of that, the text that it is given, and
//! the causes by which it may end, with their statuses, messages and counts. What a command does stands in a crate of its own.
#![tactic(auto)]

mod devices;
mod fault;
mod gathered;
mod given;
mod machine;
mod pieces;
mod place;
mod spots;
mod telling;

pub use devices::{Devices, Seen};
pub use fault::Fault;
pub use given::read_given;
pub use machine::{Kinds, Machine, WaitingMachine};
pub use pieces::write_memory;
pub use telling::{room_for, tell};
