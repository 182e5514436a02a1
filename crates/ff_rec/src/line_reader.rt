// A text that comes in pieces, cut into records within limits.
ghost use Rattle.std.specs.Prelude.{◌≡◌, ℕ, ◌+◌, ◌≤◌, ◌++◌, length, take, None, IfOk, OnSome, OnOk, OnErr};
ghost use Rattle.ff_rec.specs.Reading.{opening, after, given, last_given, answer_of, UnlessMemory};

mod line;
mod passing;
mod progress;
mod steps;

use crate::{FeedFault, NoMemory, Record};
use line::push_line;
use passing::pass;
use progress::{Limits, Progress};
use std::alloc::Global;
use std::marker::Model;
use steps::read;

/// Cuts a text, given in pieces, into the records of its lines.
#[derive(Debug, Drop)]
pub struct LineReader {
    limits: Limits,
    progress: Progress,
    fault: Option<FeedFault>,
}

impl Model for LineReader {
    ghost use Rattle.std.specs.Prelude.{IfNone};
    ghost use Rattle.ff_rec.specs.Progress.{IsReady, state_of};
    ghost use Rattle.ff_rec.specs.Reading.{Reading};

    ghost Value = { Reading };

    ghost view = { λ r. state_of r.fault r.limits r.progress };

    ghost invariant = { λ r. IfNone r.fault (IsReady r.limits r.progress) };
}

impl LineReader {
    /// A reader that takes at most so many bytes a line, its newline not counted, and so many in all.
    pub fn new(alloc: Global, line_limit: usize, input_limit: u64) -> Result<LineReader, NoMemory>
        requires line { 1 ≤ line_limit }
        requires input { 1 ≤ input_limit }
        ensures { IfOk result (λ reader. reader ≡ opening line_limit input_limit) }
    {
        Ok(LineReader {
            limits: Limits {
                line: line_limit,
                input: input_limit,
            },
            progress: Progress::new(alloc),
            fault: None,
        })
    }

    /// The refusal that came, if one did.
    pub fn fault(&self) -> Option<FeedFault>
        ensures { result ≡ self.now.fault }
    {
        self.fault
    }

    /// Appends the record of each line that this piece ends. A limit that is passed decides at its byte, and the records
    /// of the lines before are appended. Where memory ran out, the first of the records that were due are.
    pub fn feed(&mut self, piece: &[u8], into: &mut Vec<Record>) -> Result<(), FeedFault>
        ensures answer { result ≡ answer_of self.new.fault }
        ensures state { UnlessMemory result (self.new ≡ after self.old piece.now) }
        ensures records { UnlessMemory result (into.new.items
            ≡ into.old.items ++ given self.old piece.now) }
        ensures first { (n : ℕ)
            × (into.new.items ≡ into.old.items ++ take n (given self.old piece.now)) }
        ensures refused { OnSome self.old.fault
            ((self.new ≡ self.old) × (into.new.items ≡ into.old.items)) }
        ensures taken { OnOk result (self.new.taken ≡ self.old.taken + length piece.now) }
        ensures room { OnOk result (self.new.taken ≤ self.old.input_limit) }
        ensures limits { (self.new.line_limit ≡ self.old.line_limit)
            × (self.new.input_limit ≡ self.old.input_limit) }
    {
        if let Some(fault) = self.fault {
            return Err(fault);
        }
        let answer = read(self.limits, &mut self.progress, piece, into);
        if let Err(fault) = answer {
            self.fault = Some(fault);
        }
        answer
    }

    /// Reads a piece for its limits alone: it leaves and answers what `feed` does, and makes no record.
    pub fn pass_over(&mut self, piece: &[u8]) -> Result<(), FeedFault>
        ensures answer { result ≡ answer_of self.new.fault }
        ensures state { UnlessMemory result (self.new ≡ after self.old piece.now) }
        ensures refused { OnSome self.old.fault (self.new ≡ self.old) }
        ensures taken { OnOk result (self.new.taken ≡ self.old.taken + length piece.now) }
        ensures room { OnOk result (self.new.taken ≤ self.old.input_limit) }
        ensures limits { (self.new.line_limit ≡ self.old.line_limit)
            × (self.new.input_limit ≡ self.old.input_limit) }
    {
        if let Some(fault) = self.fault {
            return Err(fault);
        }
        let answer = pass(self.limits, &mut self.progress, piece);
        if let Err(fault) = answer {
            self.fault = Some(fault);
        }
        answer
    }

    /// Appends the record of the last line where bytes stand behind the last newline. After a refusal `into` is unchanged.
    pub fn finish(self, into: &mut Vec<Record>) -> Result<(), NoMemory>
        requires { self.fault ≡ None }
        ensures ok { OnOk result (into.new.items ≡ into.old.items ++ last_given self.line) }
        ensures err { OnErr result (into.new.items ≡ into.old.items) }
    {
        let line = self.progress.line.as_slice();
        if line.is_empty() {
            return Ok(());
        }
        match push_line(*self.progress.line.allocator(), line, line.len(), into) {
            Ok(()) => Ok(()),
            // The line is within the limits.
            Err(_) => Err(NoMemory),
        }
    }
}
