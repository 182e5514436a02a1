// One line: the first limit that it passes, and its record.
ghost use Rattle.std.specs.Prelude.{◌≡◌, ◌++◌, ◌∷◌, ◌<◌, ◌≤◌, [], length, take, Some, None, IfErr, OnOk, OnErr, IsErrOf};
ghost use Rattle.ff_rec.specs.declared.fault.CutFault.TheVariants.{TooManyFields, NoMemory};
ghost use Rattle.ff_rec.specs.Lines.{cut, tabs};
ghost use Rattle.ff_rec.specs.Pieces.{Lacks};
ghost use Rattle.ff_rec.specs.Progress.{IsLineFault};
ghost use Rattle.ff_rec.specs.Reading.{line_fault};

use crate::bytes::SHORT;
use crate::near::NEAR;
use crate::tabs::count_tabs;
use crate::{CutFault, FeedFault, LineFault, MOST_FIELDS, Record};
use std::alloc::Global;

/// The limit that the line `number` passes with this part. Before it stands `line`, with so many tabs.
pub fn limit_of(
    limit: usize,
    number: u64,
    line: &[u8],
    tab_count: usize,
    part: &[u8],
) -> Option<LineFault>
    requires short { length line.now ≤ limit }
    requires counted { tab_count ≡ tabs line.now }
    requires few { tab_count ≤ 63 }
    ensures { result ≡ line_fault limit number (line.now ++ part.now) }
{
    let room = limit - line.len();
    let within = &part[..part.len().min(room)];
    if MOST_FIELDS <= tab_count + count_tabs(within) {
        return Some(LineFault::TooManyFields(number));
    }
    if room < part.len() {
        return Some(LineFault::TooLong(number));
    }
    None
}

// The limit that a line passes first that is too long.
fn limit_of_long(limit: usize, number: u64, line: &[u8]) -> LineFault
    requires { limit < length line.now }
    ensures { line_fault limit number line.now ≡ Some result }
{
    if MOST_FIELDS <= count_tabs(&line[..limit]) {
        return LineFault::TooManyFields(number);
    }
    LineFault::TooLong(number)
}

/// Appends the record of the line that the first `len` bytes of a text are. After a refusal `into` is unchanged.
#[inline(always)]
pub fn push_line(
    alloc: Global,
    text: &[u8],
    len: usize,
    into: &mut Vec<Record>,
) -> Result<(), CutFault>
    requires there { len ≤ length text.now }
    requires clean { Lacks 10 (take len text.now) }
    ensures ok { OnOk result (into.new.items ≡ into.old.items ++ cut 9 (take len text.now) ∷ []) }
    ensures few { OnOk result (tabs (take len text.now) ≤ 63) }
    ensures too_many { IsErrOf result TooManyFields → 63 < tabs (take len text.now) }
    ensures err { OnErr result (into.new.items ≡ into.old.items) }
{
    if len <= SHORT && NEAR <= text.len() {
        return push(Record::of_near_line(alloc, text, len), into);
    }
    push(Record::of_line(alloc, &text[..len])?, into)
}

// Appends a record. After a refusal `into` is unchanged.
#[inline(always)]
fn push(record: Record, into: &mut Vec<Record>) -> Result<(), CutFault>
    ensures ok { OnOk result (into.new.items ≡ into.old.items ++ «record» ∷ []) }
    ensures err { OnErr result (into.new.items ≡ into.old.items) }
    ensures memory { IfErr result (λ f. f ≡ NoMemory) }
{
    match into.push(record) {
        Ok(()) => Ok(()),
        Err(_) => Err(CutFault::NoMemory),
    }
}

/// Appends the record of the whole line that the first `len` bytes of a text are, if it passes no limit. After a refusal
/// `into` is unchanged.
#[inline(always)]
pub fn push_whole(
    alloc: Global,
    limit: usize,
    number: u64,
    text: &[u8],
    len: usize,
    into: &mut Vec<Record>,
) -> Result<(), FeedFault>
    requires there { len ≤ length text.now }
    requires clean { Lacks 10 (take len text.now) }
    ensures ok { OnOk result (into.new.items ≡ into.old.items ++ cut 9 (take len text.now) ∷ []) }
    ensures fits { OnOk result (line_fault limit number (take len text.now) ≡ None) }
    ensures fault { IfErr result (λ f. IsLineFault f (line_fault limit number (take len text.now))) }
    ensures err { OnErr result (into.new.items ≡ into.old.items) }
{
    if limit < len {
        return Err(FeedFault::Line(limit_of_long(limit, number, &text[..len])));
    }
    match push_line(alloc, text, len, into) {
        Ok(()) => Ok(()),
        Err(CutFault::TooManyFields) => Err(FeedFault::Line(LineFault::TooManyFields(number))),
        Err(CutFault::NoMemory) => Err(FeedFault::NoMemory),
    }
}
