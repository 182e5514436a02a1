// The tasks of a division.
use ff_dc::{Four, Part};

/// What a worker is asked for. `number` is that of the part whose values it gives: the parts are
/// numbered from 0, a part before its two parts, the first of these with all its parts before the
/// second.
#[derive(Clone, Copy, Debug, Drop)]
pub enum DcTask {
    /// The values of a part that isn't divided, from its numbers.
    Seq {
        number: u32,
        part: Part,
    },
    /// The values of a part, from those of its two parts.
    Combine {
        number: u32,
        left: Four,
        right: Four,
    },
}
