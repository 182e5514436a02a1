//! The call `ffrun`, which `main` makes: from words and bytes to bytes and a status. It reads the words, hands over to the
//! command that they are, and tells how that ended. The words stand in `ff_words`, and each command in a crate of its own.
#![tactic(auto)]

mod execute;
mod starts;
mod top;

pub use ff_call::{Devices, Kinds, Machine, Seen, WaitingMachine};
pub use ff_words::{Command, CommandFault, Given, Text, read_command};
pub use starts::StartsAll;
pub use top::{ffrun, refuse_memory};
