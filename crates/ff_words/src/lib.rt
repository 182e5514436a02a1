//! Command words: which command they are, with its values. The crate `clap` reads the words; what it leaves open is
//! tested here.
#![tactic(auto)]

mod arguments;
mod command;
mod number;
mod parse;
mod rows;
mod text;
mod values;
mod words;

pub use command::{Command, CommandFault, DcRule, Given, Way};
pub use ff_plan::Queue;
pub use text::Text;
pub use words::read_command;
