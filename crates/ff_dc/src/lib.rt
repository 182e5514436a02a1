//! Divide and conquer over numbers: five rules, the functions that keep them, and the law that a
//! part answered by its parts, at any cut, is answered as it would be at once. No threads here.
#![tactic(auto)]

mod dividing;
mod entry;
mod four;
mod joining;
mod laws;
mod numbers;
mod part;
mod rule;
mod table;
mod values;

pub use dividing::{halve, is_small_part, two_before};
pub use entry::DcEntry;
pub use four::Four;
pub use joining::{add_firsts, first_least, join_runs, meet_brackets};
pub use laws::{
    bracket_by_parts_is_of_the_whole, fib_by_parts_is_of_the_whole,
    firstmin_by_parts_is_of_the_whole, maxsub_by_parts_is_of_the_whole,
    sum_by_parts_is_of_the_whole,
};
pub use numbers::Numbers;
pub use part::Part;
pub use rule::DcRule;
pub use table::DcTable;
pub use values::{bracket_at_once, fib_at_once, firstmin_at_once, maxsub_at_once, sum_at_once};
