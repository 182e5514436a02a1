// A source in memory, for tests and for callers of the library.
ghost use Rattle.std.specs.Prelude.{◌≡◌, ◌<◌, ◌≤◌, Some, length, IfOk};
ghost use Rattle.std.specs.Io.KnownBytes.{ReadConsumes};
ghost use Rattle.ff_io.specs.Bytes.{is_end};
ghost use Rattle.ff_io.specs.Faults.{HasCause, count_after};
ghost use Rattle.ff_io.specs.Memory.{FeedGives, opened_feed};

use crate::{Failed, Source};
use std::marker::Model;

/// A source of bytes that are there from the start. Its count rises only at a call that is made to fail.
#[derive(Debug, Drop)]
pub struct MemSource {
    bytes: Vec<u8>,
    given: usize,
    most: usize,
    fail: Vec<u64>,
    calls: u64,
    faults: u64,
    ended: bool,
}

impl Model for MemSource {
    ghost use Rattle.std.specs.Prelude.{◌≤◌, drop, vec_len};
    ghost use Rattle.ff_io.specs.Memory.{Feed};

    ghost Value = { Feed };

    ghost view = { λ s. record { bytes = drop s.given s.bytes.items; most = s.most; fail = s.fail.items; calls = s.calls; faults = s.faults; ended = s.ended } };

    ghost invariant = { λ s. (s.given ≤ vec_len s.bytes) × (1 ≤ s.most) };
}

impl MemSource {
    /// A source that gives at most `most` bytes a call, and fails the calls with these numbers, counted from 1.
    pub fn new(bytes: Vec<u8>, most: usize, fail: Vec<u64>) -> MemSource
        requires { 1 ≤ most }
        ensures { result ≡ opened_feed bytes.items most fail.items }
    {
        MemSource {
            bytes,
            given: 0,
            most,
            fail,
            calls: 0,
            faults: 0,
            ended: false,
        }
    }
}

impl Source for MemSource {
    ghost left = { λ s. Some s.bytes };

    ghost ended = { λ s. s.ended };

    ghost faults = { λ s. s.faults };

    fn read(&mut self, buf: &mut [u8]) -> Result<usize, Failed>
        requires { 0 < length buf.old }
        ensures within { IfOk result (λ n. n ≤ length buf.new) }
        ensures bytes { ReadConsumes (Some self.old.bytes) (Some self.new.bytes) result buf.new }
        ensures ended { self.new.ended ≡ is_end result }
        ensures cause { HasCause self.old.faults self.new.faults result }
        ensures counts { self.new.faults ≡ count_after self.old.faults result }
        ensures gives { FeedGives self.old result buf.new self.new }
    {
        self.calls = self.calls.saturating_add(1);
        if self.fail.contains(&self.calls) {
            self.faults = self.faults.saturating_add(1);
            self.ended = false;
            return Err(Failed);
        }
        let left = &self.bytes[self.given..];
        let portion = left.len().min(self.most).min(buf.len());
        buf[..portion].copy_from_slice(&left[..portion]);
        self.given += portion;
        self.ended = portion == 0;
        Ok(portion)
    }

    fn may_wait(&self) -> bool {
        false
    }
}
