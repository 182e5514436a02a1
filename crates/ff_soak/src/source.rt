// Records that are made as they are read.
ghost use Rattle.std.specs.Prelude.{◌≡◌, ◌-◌, ◌<◌, ◌≤◌, ◌++◌, [], Some, drop, length, IfOk, vec_len, vec_capacity};
ghost use Rattle.std.specs.Io.KnownBytes.{ReadConsumes};
ghost use Rattle.ff_io.specs.Bytes.{is_end};
ghost use Rattle.ff_io.specs.Faults.{HasCause, count_after};
ghost use Rattle.ff_rec.specs.Lines.{text};
ghost use Rattle.ff_soak.specs.Outside.{opened_making};
ghost use Rattle.ff_soak.specs.Records.{records_behind};

use crate::line::{LINE, MOST_RECORDS, push_line};
use ff_io::{Failed, Source};
use ff_rec::NoMemory;
use std::alloc::Global;
use std::marker::Model;

/// How many bytes are made at once: as many as a stream reads at once. Behind a read that gave fewer, it shows what it has and waits until
/// all threads rest.
const PIECE: usize = 65_536;

/// The most bytes that are held: fewer than a piece, and a line.
const CHUNK: usize = 65_544;

/// A source of the first records of a soak. It makes some of them at a time, and never fails.
#[derive(Drop)]
pub(crate) struct SoakSource {
    records: u64,
    made: u64,
    chunk: Vec<u8>,
    given: usize,
    ended: bool,
}

impl Model for SoakSource {
    ghost use Rattle.std.specs.Prelude.{◌-◌, ◌≤◌, ◌++◌, drop, vec_len, vec_capacity};
    ghost use Rattle.ff_rec.specs.Lines.{text};
    ghost use Rattle.ff_soak.specs.Outside.{Making};
    ghost use Rattle.ff_soak.specs.Records.{records_behind};
    ghost use Rattle.ff_soak.specs.declared.line.TheConstants.{MOST_RECORDS};
    ghost use Rattle.ff_soak.specs.declared.source.TheConstants.{CHUNK};

    ghost Value = { Making };

    ghost view = { λ s. record { left = drop s.given s.chunk.items ++ text (records_behind s.made (s.records - s.made)); ended = s.ended } };

    ghost invariant = { λ s. (s.given ≤ vec_len s.chunk) × (s.made ≤ s.records) × (s.records ≤ MOST_RECORDS) × (CHUNK ≤ vec_capacity s.chunk) };
}

impl SoakSource {
    /// A source of the first so many records.
    pub(crate) fn new(alloc: Global, records: u64) -> Result<SoakSource, NoMemory>
        requires { records ≤ MOST_RECORDS }
        ensures { IfOk result (λ source. source ≡ opened_making records) }
    {
        Ok(SoakSource {
            records,
            made: 0,
            chunk: Vec::with_capacity(alloc, CHUNK)?,
            given: 0,
            ended: false,
        })
    }
}

// Where less than a piece is left of the chunk, the next records are made behind it. The answer is how many bytes of the chunk and how
// many records are given and made then.
fn more(chunk: &mut Vec<u8>, given: usize, made: u64, records: u64) -> (usize, u64)
    requires held { given ≤ vec_len chunk.old }
    requires within { made ≤ records }
    requires few { records ≤ MOST_RECORDS }
    requires room { CHUNK ≤ vec_capacity chunk.old }
    ensures bytes { drop result.0 chunk.new.items ++ text (records_behind result.1 (records - result.1))
        ≡ drop given chunk.old.items ++ text (records_behind made (records - made)) }
    ensures held { result.0 ≤ vec_len chunk.new }
    ensures within { result.1 ≤ records }
    ensures whole { vec_len chunk.new - result.0 < PIECE → result.1 ≡ records }
    ensures room { CHUNK ≤ vec_capacity chunk.new }
{
    if chunk.len() - given >= PIECE {
        return (given, made);
    }
    chunk.drain(..given);
    (0, refill(chunk, made, records))
}

// Makes the next records behind what is left, and answers how many are made then.
fn refill(chunk: &mut Vec<u8>, made: u64, records: u64) -> u64
    requires within { made ≤ records }
    requires few { records ≤ MOST_RECORDS }
    requires room { CHUNK ≤ vec_capacity chunk.old }
    ensures bytes { chunk.new.items ++ text (records_behind result (records - result))
        ≡ chunk.old.items ++ text (records_behind made (records - made)) }
    ensures within { result ≤ records }
    ensures whole { vec_len chunk.new < PIECE → result ≡ records }
    ensures room { CHUNK ≤ vec_capacity chunk.new }
{
    for i in made..records {
        if chunk.len() >= PIECE {
            return i;
        }
        push_line(chunk, i + 1);
    }
    records
}

impl Source for SoakSource {
    ghost left = { λ s. Some s.left };

    ghost ended = { λ s. s.ended };

    ghost faults = { λ s. 0 };

    fn read(&mut self, buf: &mut [u8]) -> Result<usize, Failed>
        requires { 0 < length buf.old }
        ensures within { IfOk result (λ n. n ≤ length buf.new) }
        ensures bytes { ReadConsumes (Some self.old.left) (Some self.new.left) result buf.new }
        ensures ended { self.new.ended ≡ is_end result }
        ensures whole { IfOk result (λ n. n < length buf.new → n < PIECE → self.new.left ≡ []) }
        ensures cause { HasCause 0 0 result }
        ensures counts { 0 ≡ count_after 0 result }
    {
        let (given, made) = more(&mut self.chunk, self.given, self.made, self.records);
        let left = &self.chunk[given..];
        let portion = left.len().min(buf.len());
        buf[..portion].copy_from_slice(&left[..portion]);
        self.given = given + portion;
        self.made = made;
        self.ended = portion == 0;
        Ok(portion)
    }

    fn may_wait(&self) -> bool {
        false
    }
}
