// How much a record, a line and a text may hold: each limit has its name here, and other crates cite it.

/// The most fields of a record.
pub const MOST_FIELDS: usize = 64;

/// The most bytes of a line, its newline not counted, under a network of version One.
pub const LONGEST_LINE_ONE: usize = 65_536;

/// The most bytes of a line, its newline not counted, under a network of version Two.
pub const LONGEST_LINE_TWO: usize = 1_048_576;

/// The most bytes of an input.
pub const LONGEST_INPUT: u64 = 1 << 40;

/// The most bytes of the text of a network.
pub const LONGEST_TEXT: usize = 65_536;
