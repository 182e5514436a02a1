//! A list of numbers that comes as a text, each on a line of its own.
#![tactic(auto)]

mod fault;
mod reading;

pub use fault::{InputFault, MOST_NUMBERS};
pub use reading::read_numbers;
