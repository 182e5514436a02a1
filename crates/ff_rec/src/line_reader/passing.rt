// How a piece is read for its limits alone: no record is made of its lines.
ghost use Rattle.std.specs.Prelude.{◌≡◌, ◌+◌, ◌++◌, ◌≤◌, length, IfErr, OnOk};
ghost use Rattle.ff_rec.specs.Pieces.{Lacks};
ghost use Rattle.ff_rec.specs.Progress.{IsReady, EndsLine, IsLineFault, reading_of, left_by};
ghost use Rattle.ff_rec.specs.Reading.{line_fault, after, UnlessMemory};

use super::line::limit_of;
use super::progress::{Limits, Progress};
use super::steps::keep_part;
use crate::{FeedFault, LineFault, split};

/// Passes over a piece.
pub fn pass(limits: Limits, progress: &mut Progress, piece: &[u8]) -> Result<(), FeedFault>
    requires { IsReady limits progress.old }
    ensures ready { OnOk result (IsReady limits progress.new) }
    ensures taken { OnOk result (progress.new.taken ≡ progress.old.taken + length piece.now) }
    ensures state { UnlessMemory result (left_by result limits progress.new
        ≡ after (reading_of limits progress.old) piece.now) }
{
    let room = limits.input - progress.taken;
    if piece.len() as u64 <= room {
        return pass_within(limits, progress, piece);
    }
    pass_within(limits, progress, &piece[..room as usize])?;
    Err(FeedFault::Line(LineFault::InputTooLong))
}

// Passes over a piece that doesn't pass the limit of the input.
fn pass_within(limits: Limits, progress: &mut Progress, piece: &[u8]) -> Result<(), FeedFault>
    requires ready { IsReady limits progress.old }
    requires room { progress.old.taken + length piece.now ≤ limits.input }
    ensures ready { OnOk result (IsReady limits progress.new) }
    ensures taken { OnOk result (progress.new.taken ≡ progress.old.taken + length piece.now) }
    ensures state { UnlessMemory result (left_by result limits progress.new
        ≡ after (reading_of limits progress.old) piece.now) }
{
    let mut left = piece;
    loop {
        match split(left, b'\n') {
            (part, None) => return keep_part(limits, progress, part),
            (part, Some(behind)) => {
                pass_line(limits, progress, part)?;
                left = behind;
            }
        }
    }
}

// Passes over a line whose last part stands before a newline. It takes no memory.
fn pass_line(limits: Limits, progress: &mut Progress, part: &[u8]) -> Result<(), FeedFault>
    requires ready { IsReady limits progress.old }
    requires room { progress.old.taken + length part.now + 1 ≤ limits.input }
    requires clean { Lacks 10 part.now }
    ensures ok { OnOk result (EndsLine limits progress.old progress.new part.now) }
    ensures fault { IfErr result (λ f. IsLineFault f
        (line_fault limits.line (progress.old.ended + 1) (progress.old.line.items ++ part.now))) }
{
    if let Some(fault) = limit_of(
        limits.line,
        progress.ended + 1,
        progress.line.as_slice(),
        progress.tab_count,
        part,
    ) {
        return Err(FeedFault::Line(fault));
    }
    progress.line.clear();
    progress.tab_count = 0;
    progress.taken += part.len() as u64 + 1;
    progress.ended += 1;
    Ok(())
}
