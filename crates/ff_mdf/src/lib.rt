//! Macro dataflow: what the tasks of a program give, one after another on one thread, and why any
//! order of ready tasks gives the same.
#![tactic(auto)]

mod laws;
mod serial;
mod store;
mod value;

pub use ff_prog::{
    CheckedProgram, Link, Links, MdfOp, Name, Names, Operand, ProgFault, Program, Statement,
    check_program, read_program,
};
pub use laws::{any_order_gives_the_store, each_operand_has_its_latest_writers_value};
pub use serial::one_thread;
pub use store::Store;
pub use value::{MdfAnswer, Value, apply};
