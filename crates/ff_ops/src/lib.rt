//! The operations of the table, each a node.
#![tactic(auto)]

mod arg;
mod counts;
mod entries;
mod family;
mod fate;
mod field_op;
mod fold_node;
mod fold_op;
mod given;
mod keyed_op;
mod laws;
mod needle;
mod number_op;
mod op;
mod ordered_op;
mod row;
mod table;
mod totals;

pub use arg::{Arg, ArgKind};
pub use counts::Counts;
pub use family::Family;
pub(crate) use fate::Fate;
pub use field_op::FieldOp;
pub use fold_node::FoldNode;
pub use fold_op::FoldOp;
pub use keyed_op::KeyedOp;
pub use laws::{
    folds_of_numbers_reject_the_rest, max_is_the_greatest_number, min_is_the_least_number,
    tally_is_the_number_of_records, tallyby_counts_each_content,
    total_is_the_difference_of_two_sums, totalby_totals_each_content,
};
pub use needle::Needle;
pub use number_op::{NumberOp, NumberRule};
pub use op::{Op, OpFault};
pub use ordered_op::OrderedOp;
pub use row::{ROWS, Row, shape};
pub use totals::Totals;
