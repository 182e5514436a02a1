//! The commands `check` and `plan`, which print the network of the text that they are given.
#![tactic(auto)]

mod print;

pub use print::{Form, print_given};
