// How long threads spin.
ghost use Rattle.std.specs.Prelude.{◌≡◌};
ghost use Rattle.ff_ring.specs.SpinCounts.{most_spins, most_looks};

/// How long a thread spins before it lies down.
#[derive(Clone, Copy, Debug, PartialEq, Eq)]
pub enum Spins {
    /// At most 64 between two tries: many messages come at once, and more spins would take the processor from those who send them.
    Few,
    /// As few between two tries, but for some tens of microseconds in all: messages come one by one, and the next one sooner than a
    /// sleep ends. Where that found nothing it is mostly left out.
    Long,
    /// At most 1024: the thread waits for the answer to what it has just handed over, which comes sooner than a sleep ends.
    Many,
}

impl Spins {
    /// The most spins between two tries.
    pub(crate) fn most(self) -> u32
        ensures { result ≡ most_spins self }
    {
        match self {
            Spins::Few | Spins::Long => 64,
            Spins::Many => 1024,
        }
    }

    /// How often the thread looks on behind its longest spins.
    pub(crate) fn looks(self) -> u32
        ensures { result ≡ most_looks self }
    {
        match self {
            Spins::Few | Spins::Many => 0,
            Spins::Long => 64,
        }
    }
}
