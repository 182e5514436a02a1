// How a run over a stream ends.
use ff_rec::{LineFault, Records};

/// What was rejected.
#[derive(Debug, Drop)]
pub struct Report {
    /// How many records were rejected, up to 2^64 - 1.
    pub rejected: u64,
    /// These records, where they were to be kept.
    pub kept: Records,
}

/// Why no more is read. What was read is worked on to its end.
#[derive(Clone, Copy, Debug, PartialEq, Eq)]
pub enum Stop {
    /// The input ended.
    End,
    /// The source failed. A last line without a newline isn't used.
    Read,
    /// A line, or the whole input, passed a limit.
    Line(LineFault),
}

/// The end of a run that wrote all that is sent for the records that it read.
#[derive(Debug, Drop)]
pub struct Ending {
    pub stop: Stop,
    pub report: Report,
}
