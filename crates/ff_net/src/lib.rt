//! Networks of nodes: their forms, the rules that they have to keep, and what they mean on one thread.
#![tactic(auto)]

mod at;
mod checked;
mod copy;
mod counts;
mod depth;
mod fault;
mod faults;
mod find;
mod forms;
pub mod laws;
mod leaves;
mod limits;
mod net;
mod nodes;
mod path;
mod rule;
mod spot;
mod tasks;

pub use checked::{Checked, check};
pub use fault::RuleFault;
pub use net::{Net, Route, Sched, Test, Version};
pub use path::Path;
pub use tasks::{Tasks, sort};
