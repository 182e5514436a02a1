//! Stored functions of numbers: maps, tests and folds by their rules, each function beside the fact
//! that it keeps its rule.
#![tactic(auto)]

mod folds;
mod laws;
mod maps;
mod predicates;
mod table;

pub use folds::{FoldEntry, FoldRule, gcd, xor};
pub use laws::two_steps_of_a_fold_commute;
pub use maps::{MapEntry, MapRule, collatz, digits, isqrt};
pub use predicates::{TestEntry, TestRule, square};
pub use table::FnTable;
