// A source of which no read is known to be quick, for tests.
ghost use Rattle.std.specs.Prelude.{◌≡◌};

use crate::{Failed, Source};

/// Passes each read on to another source, and may wait before each, as a terminal does.
#[derive(Debug, Drop)]
pub struct SlowSource<S> {
    inner: S,
}

impl<S: Source> SlowSource<S> {
    /// A source that reads from `inner`.
    pub fn new(inner: S) -> SlowSource<S>
        ensures left { ⟦<SlowSource<S> as Source>⟧.left result ≡ S.left inner }
        ensures ended { ⟦<SlowSource<S> as Source>⟧.ended result ≡ S.ended inner }
        ensures faults { ⟦<SlowSource<S> as Source>⟧.faults result ≡ S.faults inner }
    {
        SlowSource { inner }
    }
}

impl<S: Source> Source for SlowSource<S> {
    ghost left = { λ s. S.left s.inner };

    ghost ended = { λ s. S.ended s.inner };

    ghost faults = { λ s. S.faults s.inner };

    fn read(&mut self, buf: &mut [u8]) -> Result<usize, Failed> {
        self.inner.read(buf)
    }

    fn may_wait(&self) -> bool {
        true
    }
}
