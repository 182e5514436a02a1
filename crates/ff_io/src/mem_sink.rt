// A sink in memory, for tests and for callers of the library.
ghost use Rattle.std.specs.Prelude.{◌≡◌, ◌<◌, ◌≤◌, Some, length, IfOk};
ghost use Rattle.std.specs.Io.KnownBytes.{WriteAppends};
ghost use Rattle.ff_io.specs.Faults.{HasCause, count_after};
ghost use Rattle.ff_io.specs.Memory.{TrayTakes, opened_tray};

use crate::{Failed, Sink};
use ff_rec::NoMemory;
use std::alloc::Global;
use std::marker::Model;

/// A sink that keeps what it takes. Its count rises only at a call that is made to fail or finds the budget used up.
#[derive(Debug, Drop)]
pub struct MemSink {
    bytes: Vec<u8>,
    budget: usize,
    fail: Vec<u64>,
    calls: u64,
    faults: u64,
}

impl Model for MemSink {
    ghost use Rattle.std.specs.Prelude.{◌≤◌, vec_len, vec_capacity};
    ghost use Rattle.ff_io.specs.Memory.{Tray};

    ghost Value = { Tray };

    ghost view = { λ s. record { bytes = s.bytes.items; budget = s.budget; fail = s.fail.items; calls = s.calls; faults = s.faults } };

    ghost invariant = { λ s. (vec_len s.bytes ≤ s.budget) × (s.budget ≤ vec_capacity s.bytes) };
}

impl MemSink {
    /// A sink that takes `budget` bytes in all and then fails each call, and fails the calls with these numbers, counted
    /// from 1. It reserves the budget at once, so that no later call takes memory.
    pub fn new(alloc: Global, budget: usize, fail: Vec<u64>) -> Result<MemSink, NoMemory>
        ensures { IfOk result (λ sink. sink ≡ opened_tray budget fail.items) }
    {
        Ok(MemSink {
            bytes: Vec::with_capacity(alloc, budget)?,
            budget,
            fail,
            calls: 0,
            faults: 0,
        })
    }

    /// The bytes that it took.
    pub fn taken(&self) -> &[u8]
        ensures { result.now ≡ self.now.bytes }
    {
        self.bytes.as_slice()
    }
}

impl Sink for MemSink {
    ghost taken = { λ s. Some s.bytes };

    ghost faults = { λ s. s.faults };

    fn write(&mut self, piece: &[u8]) -> Result<usize, Failed>
        requires { 0 < length piece.now }
        ensures some { IfOk result (λ n. 0 < n) }
        ensures within { IfOk result (λ n. n ≤ length piece.now) }
        ensures bytes { WriteAppends (Some self.old.bytes) (Some self.new.bytes) result piece.now }
        ensures cause { HasCause self.old.faults self.new.faults result }
        ensures counts { self.new.faults ≡ count_after self.old.faults result }
        ensures takes { TrayTakes self.old result piece.now self.new }
    {
        self.calls = self.calls.saturating_add(1);
        let room = self.budget - self.bytes.len();
        if room == 0 || self.fail.contains(&self.calls) {
            self.faults = self.faults.saturating_add(1);
            return Err(Failed);
        }
        let portion = piece.len().min(room);
        match self.bytes.extend_from_slice(&piece[..portion]) {
            Ok(()) => Ok(portion),
            // The room is reserved.
            Err(_) => unreachable!(),
        }
    }
}
