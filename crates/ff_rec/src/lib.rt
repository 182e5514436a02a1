//! Records of fields, numbers in fields, and how records are written: the base of all other crates.
#![tactic(auto)]

mod block;
mod bytes;
mod case;
mod cmp;
mod fault;
mod field;
mod laws;
mod limits;
mod line_reader;
mod msg;
mod near;
mod number;
mod pieces;
mod record;
mod records;
mod tabs;

pub use case::Case;
pub use cmp::Cmp;
pub use fault::{CutFault, FeedFault, FieldFault, Kept, LineFault, NoMemory, PushFault};
pub use field::Field;
pub use laws::{
    a_text_within_its_limits_passes_none, contents_rise_and_are_what_occurs,
    printed_numbers_are_read, reading_is_cutting, same_is_each_record_as_often,
    written_records_are_read,
};
pub use limits::{LONGEST_INPUT, LONGEST_LINE_ONE, LONGEST_LINE_TWO, LONGEST_TEXT, MOST_FIELDS};
pub use line_reader::LineReader;
pub use msg::Msg;
pub use number::{print_number, read_number};
pub use pieces::{split, split_near};
pub use record::{Record, print_record};
pub use records::{Records, copies};
