//! The command `run`, which runs the network of the text that it is given over the records of the input.
#![tactic(auto)]

mod command;
mod rejects;
mod run;

pub use command::run_given;
pub use run::Order;
