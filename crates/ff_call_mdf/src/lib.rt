//! The command `mdf`, which does the tasks of a program by threads and writes what it puts out.
#![tactic(auto)]

mod command;
mod given;
mod store_text;

pub use command::run_mdf;
pub use given::read_given_program;
pub use store_text::print_store;
