// How a piece is read, line by line.
ghost use Rattle.std.specs.Prelude.{◌≡◌, ℕ, ◌+◌, ◌++◌, ◌∷◌, ◌<◌, ◌≤◌, [], length, take, IfErr, OnOk, OnErr};
ghost use Rattle.ff_rec.specs.Lines.{cut};
ghost use Rattle.ff_rec.specs.Pieces.{Lacks};
ghost use Rattle.ff_rec.specs.Progress.{IsReady, KeepsPart, EndsLine, IsLineFault, reading_of, left_by};
ghost use Rattle.ff_rec.specs.Reading.{line_fault, after, given, UnlessMemory};

use super::line::{limit_of, push_whole};
use super::progress::{Limits, Progress};
use crate::tabs::count_tabs;
use crate::{FeedFault, LineFault, Record, split};

/// Reads a piece.
pub fn read(
    limits: Limits,
    progress: &mut Progress,
    piece: &[u8],
    into: &mut Vec<Record>,
) -> Result<(), FeedFault>
    requires { IsReady limits progress.old }
    ensures ready { OnOk result (IsReady limits progress.new) }
    ensures taken { OnOk result (progress.new.taken ≡ progress.old.taken + length piece.now) }
    ensures state { UnlessMemory result (left_by result limits progress.new
        ≡ after (reading_of limits progress.old) piece.now) }
    ensures records { UnlessMemory result (into.new.items
        ≡ into.old.items ++ given (reading_of limits progress.old) piece.now) }
    ensures first { (n : ℕ) × (into.new.items
        ≡ into.old.items ++ take n (given (reading_of limits progress.old) piece.now)) }
{
    let room = limits.input - progress.taken;
    if piece.len() as u64 <= room {
        return read_within(limits, progress, piece, into);
    }
    read_within(limits, progress, &piece[..room as usize], into)?;
    Err(FeedFault::Line(LineFault::InputTooLong))
}

// Reads a piece that doesn't pass the limit of the input.
fn read_within(
    limits: Limits,
    progress: &mut Progress,
    piece: &[u8],
    into: &mut Vec<Record>,
) -> Result<(), FeedFault>
    requires ready { IsReady limits progress.old }
    requires room { progress.old.taken + length piece.now ≤ limits.input }
    ensures ready { OnOk result (IsReady limits progress.new) }
    ensures taken { OnOk result (progress.new.taken ≡ progress.old.taken + length piece.now) }
    ensures state { UnlessMemory result (left_by result limits progress.new
        ≡ after (reading_of limits progress.old) piece.now) }
    ensures records { UnlessMemory result (into.new.items
        ≡ into.old.items ++ given (reading_of limits progress.old) piece.now) }
    ensures first { (n : ℕ) × (into.new.items
        ≡ into.old.items ++ take n (given (reading_of limits progress.old) piece.now)) }
{
    let mut left = piece;
    loop {
        match split(left, b'\n') {
            (part, None) => return keep_part(limits, progress, part),
            (part, Some(behind)) => {
                end_line(limits, progress, left, part.len(), into)?;
                left = behind;
            }
        }
    }
}

/// Keeps a part of a line that no newline has ended yet.
pub fn keep_part(limits: Limits, progress: &mut Progress, part: &[u8]) -> Result<(), FeedFault>
    requires ready { IsReady limits progress.old }
    requires room { progress.old.taken + length part.now ≤ limits.input }
    requires clean { Lacks 10 part.now }
    ensures ok { OnOk result (KeepsPart limits progress.old progress.new part.now) }
    ensures fault { IfErr result (λ f. IsLineFault f
        (line_fault limits.line (progress.old.ended + 1) (progress.old.line.items ++ part.now))) }
{
    if part.is_empty() {
        return Ok(());
    }
    if let Some(fault) = limit_of(
        limits.line,
        progress.ended + 1,
        progress.line.as_slice(),
        progress.tab_count,
        part,
    ) {
        return Err(FeedFault::Line(fault));
    }
    match progress.line.extend_from_slice(part) {
        Ok(()) => {
            progress.tab_count += count_tabs(part);
            progress.taken += part.len() as u64;
            Ok(())
        }
        Err(_) => Err(FeedFault::NoMemory),
    }
}

// Appends the record of a line whose last part, the first `len` bytes of a text, stands before a newline. After a refusal
// `into` is unchanged.
#[inline(always)]
fn end_line(
    limits: Limits,
    progress: &mut Progress,
    text: &[u8],
    len: usize,
    into: &mut Vec<Record>,
) -> Result<(), FeedFault>
    requires ready { IsReady limits progress.old }
    requires there { len ≤ length text.now }
    requires room { progress.old.taken + len + 1 ≤ limits.input }
    requires clean { Lacks 10 (take len text.now) }
    ensures ok { OnOk result (EndsLine limits progress.old progress.new (take len text.now)) }
    ensures record { OnOk result (into.new.items
        ≡ into.old.items ++ cut 9 (progress.old.line.items ++ take len text.now) ∷ []) }
    ensures fault { IfErr result (λ f. IsLineFault f
        (line_fault limits.line (progress.old.ended + 1) (progress.old.line.items ++ take len text.now))) }
    ensures err { OnErr result (into.new.items ≡ into.old.items) }
{
    if !progress.line.is_empty() {
        return end_kept(limits, progress, &text[..len], into);
    }
    // The line lies whole in the piece: it isn't copied first.
    push_whole(
        *progress.line.allocator(),
        limits.line,
        progress.ended + 1,
        text,
        len,
        into,
    )?;
    progress.taken += len as u64 + 1;
    progress.ended += 1;
    Ok(())
}

// Appends the record of a line that began in an earlier piece. After a refusal `into` is unchanged.
fn end_kept(
    limits: Limits,
    progress: &mut Progress,
    part: &[u8],
    into: &mut Vec<Record>,
) -> Result<(), FeedFault>
    requires ready { IsReady limits progress.old }
    requires room { progress.old.taken + length part.now + 1 ≤ limits.input }
    requires clean { Lacks 10 part.now }
    ensures ok { OnOk result (EndsLine limits progress.old progress.new part.now) }
    ensures record { OnOk result (into.new.items
        ≡ into.old.items ++ cut 9 (progress.old.line.items ++ part.now) ∷ []) }
    ensures fault { IfErr result (λ f. IsLineFault f
        (line_fault limits.line (progress.old.ended + 1) (progress.old.line.items ++ part.now))) }
    ensures err { OnErr result (into.new.items ≡ into.old.items) }
{
    keep_part(limits, progress, part)?;
    push_whole(
        *progress.line.allocator(),
        limits.line,
        progress.ended + 1,
        progress.line.as_slice(),
        progress.line.len(),
        into,
    )?;
    progress.line.clear();
    progress.tab_count = 0;
    progress.taken += 1;
    progress.ended += 1;
    Ok(())
}
