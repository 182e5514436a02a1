// Readers of std as sources. A read that a signal interrupts is tried again, and is no fault.
ghost use Rattle.std.specs.Prelude.{◌≡◌, ◌≤◌, false, length, IfOk};
ghost use Rattle.std.specs.Io.KnownBytes.{ReadConsumes};

use crate::{Failed, Source};
use std::io::{ErrorKind, Read};

/// A reader as a source.
#[derive(Drop)]
pub struct ReaderSource<R> {
    reader: R,
    faults: u64,
    ended: bool,
}

impl<R: Read> ReaderSource<R> {
    /// A source that read nothing yet.
    pub fn new(reader: R) -> ReaderSource<R>
        ensures left { ⟦<ReaderSource<R> as Source>⟧.left result ≡ R.remaining reader }
        ensures ended { ⟦<ReaderSource<R> as Source>⟧.ended result ≡ false }
        ensures faults { ⟦<ReaderSource<R> as Source>⟧.faults result ≡ 0 }
    {
        ReaderSource {
            reader,
            faults: 0,
            ended: false,
        }
    }
}

impl<R: Read> Source for ReaderSource<R> {
    ghost left = { λ s. R.remaining s.reader };

    ghost ended = { λ s. s.ended };

    ghost faults = { λ s. s.faults };

    fn read(&mut self, buf: &mut [u8]) -> Result<usize, Failed> {
        let answer = read_some(&mut self.reader, buf);
        if answer.is_err() {
            self.faults = self.faults.saturating_add(1);
        }
        self.ended = matches!(answer, Ok(0));
        answer
    }
}

fn read_some<R: Read>(reader: &mut R, buf: &mut [u8]) -> Result<usize, Failed>
    ensures within { IfOk result (λ n. n ≤ length buf.new) }
    ensures bytes { ReadConsumes (R.remaining reader.old) (R.remaining reader.new) result buf.new }
{
    for _ in 0..u64::MAX {
        match reader.read(buf) {
            Ok(given) => return Ok(given),
            Err(error) if error.kind() == ErrorKind::Interrupted => {}
            Err(_) => return Err(Failed),
        }
    }
    Err(Failed)
}
