// Standard input as a source.
ghost use Rattle.std.specs.Prelude.{◌≡◌, false};

use crate::{Failed, ReaderSource, Source};
use std::fs;
use std::io::{Read, Stdin};
use std::rt::Files as FileSystem;

/// Standard input. A read of a plain file never waits for long, and one of anything else may.
#[derive(Drop)]
pub struct StdinSource {
    reader: ReaderSource<Stdin>,
    is_file: bool,
}

impl StdinSource {
    /// A source that read nothing yet.
    pub fn new<R: FileSystem>(rt: &R, stdin: Stdin) -> StdinSource
        ensures left { ⟦<StdinSource as Source>⟧.left result ≡ ⟦<Stdin as Read>⟧.remaining stdin }
        ensures ended { ⟦<StdinSource as Source>⟧.ended result ≡ false }
        ensures faults { ⟦<StdinSource as Source>⟧.faults result ≡ 0 }
    {
        let is_file = match fs::metadata(rt, "/dev/stdin") {
            Ok(input) => input.is_file(),
            Err(_) => false,
        };
        StdinSource {
            reader: ReaderSource::new(stdin),
            is_file,
        }
    }
}

impl Source for StdinSource {
    ghost left = { λ s. ⟦<ReaderSource<Stdin> as Source>⟧.left s.reader };

    ghost ended = { λ s. ⟦<ReaderSource<Stdin> as Source>⟧.ended s.reader };

    ghost faults = { λ s. ⟦<ReaderSource<Stdin> as Source>⟧.faults s.reader };

    fn read(&mut self, buf: &mut [u8]) -> Result<usize, Failed> {
        self.reader.read(buf)
    }

    fn may_wait(&self) -> bool {
        !self.is_file
    }
}
