// Why no thread was started.

/// Why a job wasn't started. The job comes back as it was.
#[derive(Drop)]
pub enum StartFault<J> {
    /// The spawner refused, and counted that.
    Refused(J),
    NoMemory(J),
}

/// Why a spawner doesn't admit a start.
#[derive(Clone, Copy, Debug, PartialEq, Eq)]
pub enum Denial {
    Refused,
    NoMemory,
}
