//! Texts of macro dataflow programs: which statements they are, which rules these keep, and where
//! each operand gets its value from.
#![tactic(auto)]

mod byte_class;
mod check;
mod crowd;
mod fault;
mod grammar;
mod laws;
mod link;
mod linking;
mod name;
mod op;
mod operands;
mod program;
mod read;
mod rules;
mod statement;
mod word;
mod writers;

pub use check::{CheckedProgram, check_program};
pub use fault::ProgFault;
pub use laws::statements_are_spelled;
pub use link::{Link, Links};
pub use name::{LONGEST_NAME, Name};
pub use op::MdfOp;
pub use program::{Names, Program};
pub use read::read_program;
pub use statement::{Operand, Statement};
