// A sink that takes less at a time than the one that it passes on to.
ghost use Rattle.std.specs.Prelude.{◌≡◌, ◌<◌, ◌≤◌, length, IfOk};
ghost use Rattle.std.specs.Io.KnownBytes.{WriteAppends};
ghost use Rattle.ff_io.specs.Faults.{HasCause, count_after};

use crate::{Failed, Sink};
use std::marker::Model;

/// Passes on at most the first `most` bytes of each piece, and answers as the inner sink does.
#[derive(Drop)]
pub struct ShortSink<K> {
    inner: K,
    most: usize,
}

impl<K> Model for ShortSink<K> {
    ghost use Rattle.std.specs.Prelude.{◌≤◌};
    ghost use Rattle.ff_io.specs.Short.{Short};

    ghost Value = { Short K };

    ghost view = { λ s. record { inner = s.inner; most = s.most } };

    ghost invariant = { λ s. 1 ≤ s.most };
}

impl<K: Sink> ShortSink<K> {
    /// A sink that takes at most `most` bytes a call and passes them on to `inner`.
    pub fn new(inner: K, most: usize) -> ShortSink<K>
        requires { 1 ≤ most }
        ensures { result ≡ record { inner = inner; most = most } }
    {
        ShortSink { inner, most }
    }

    /// The sink that it passed on to.
    pub fn into_inner(self) -> K
        ensures { result ≡ self.inner }
    {
        self.inner
    }
}

impl<K: Sink> Sink for ShortSink<K> {
    ghost taken = { λ s. K.taken s.inner };

    ghost faults = { λ s. K.faults s.inner };

    fn write(&mut self, piece: &[u8]) -> Result<usize, Failed>
        requires { 0 < length piece.now }
        ensures some { IfOk result (λ n. 0 < n) }
        ensures within { IfOk result (λ n. n ≤ length piece.now) }
        ensures bytes { WriteAppends (K.taken self.old.inner) (K.taken self.new.inner) result piece.now }
        ensures cause { HasCause (K.faults self.old.inner) (K.faults self.new.inner) result }
        ensures counts { K.faults self.new.inner ≡ count_after (K.faults self.old.inner) result }
        ensures short { IfOk result (λ n. n ≤ self.old.most) }
        ensures same_most { self.new.most ≡ self.old.most }
    {
        let end = piece.len().min(self.most);
        self.inner.write(&piece[..end])
    }
}
