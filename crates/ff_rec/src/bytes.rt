// The bytes of a record and the number of its fields: in place where the bytes are few, else in one heap block.
ghost use Rattle.std.specs.Prelude.{◌≡◌, ◌+◌, ◌^◌, ◌++◌, ◌<◌, ◌≤◌, length, take, drop, slice_range, IfOk, OnOk, OnErr, IsErrOf};
ghost use Rattle.ff_rec.specs.Block.{IsFieldEnd, parts_swapped, replaced};
ghost use Rattle.ff_rec.specs.Cases.{in_case};
ghost use Rattle.ff_rec.specs.Lines.{tabs};
ghost use Rattle.ff_rec.specs.Stored.{stored_as};
ghost use Rattle.ff_rec.specs.declared.fault.CutFault.TheVariants.{TooManyFields};

mod long;
mod parts;
mod short;

use crate::near::{NEAR, tabs_near};
use crate::tabs::{count_tabs, field_end};
use crate::{Case, CutFault, MOST_FIELDS, NoMemory};
use long::{keep, narrow, replace};
use parts::swap_parts;
pub use short::SHORT;
use short::Short;
use std::alloc::Global;
use std::marker::Model;

/// Bytes and a count.
#[derive(Debug)]
pub struct Bytes {
    held: Held,
    alloc: Global,
}

// By hand, so that letting a record go is one call for its owners, and not a choice between the two ways in which it is
// held.
impl Drop for Bytes {
    fn drop(self) {
        let Bytes { held, alloc: _ } = self;
        drop(held);
    }
}

// The count stands beside the tag, where it takes no room of its own.
#[derive(Debug, Drop)]
enum Held {
    Few(u8, Short),
    Many(u8, Vec<u8>),
}

impl Model for Bytes {
    ghost use Rattle.ff_rec.specs.Stored.{Stored};

    ghost Value = { Stored };

    ghost use Rattle.ff_rec.specs.Held.{stored};

    ghost view = { λ b. stored b.held };
}

impl Bytes {
    /// These bytes, with this count.
    #[inline]
    pub fn of(alloc: Global, bytes: &[u8], count: u8) -> Result<Bytes, NoMemory>
        ensures { IfOk result (λ b. b ≡ stored_as bytes.now count) }
    {
        let held = if bytes.len() <= SHORT {
            Held::Few(count, Short::of(bytes))
        } else {
            Held::Many(count, Vec::from_slice(alloc, bytes)?)
        };
        Ok(Bytes { held, alloc })
    }

    /// As `of_line` of the first `len` bytes of a longer text. It takes no memory.
    #[inline(always)]
    pub fn of_near_line(alloc: Global, text: &[u8], len: usize) -> Bytes
        requires near { len ≤ SHORT }
        requires long { NEAR ≤ length text.now }
        ensures { result ≡ stored_as (take len text.now) (tabs (take len text.now) + 1) }
    {
        Bytes {
            held: Held::Few(tabs_near(text, len) + 1, Short::of_front(text, len)),
            alloc,
        }
    }

    /// The bytes of a line, with the number of its fields.
    #[inline]
    pub fn of_line(alloc: Global, line: &[u8]) -> Result<Bytes, CutFault>
        ensures ok { IfOk result (λ b. b ≡ stored_as line.now (tabs line.now + 1)) }
        ensures few { OnOk result (tabs line.now ≤ 63) }
        ensures too_many { IsErrOf result TooManyFields → 63 < tabs line.now }
    {
        if line.len() <= SHORT {
            let (short, tab_count) = Short::of_line(line);
            return Ok(Bytes {
                held: Held::Few(tab_count + 1, short),
                alloc,
            });
        }
        let count = count_tabs(line) + 1;
        if MOST_FIELDS < count {
            return Err(CutFault::TooManyFields);
        }
        match Vec::from_slice(alloc, line) {
            Ok(block) => Ok(Bytes {
                held: Held::Many(count as u8, block),
                alloc,
            }),
            Err(_) => Err(CutFault::NoMemory),
        }
    }

    /// An equal value.
    #[inline]
    pub fn copy(&self) -> Result<Bytes, NoMemory>
        ensures { IfOk result (λ b. b ≡ self.now) }
    {
        let held = match &self.held {
            Held::Few(count, short) => Held::Few(*count, short.copy()),
            Held::Many(count, block) => Held::Many(*count, block.clone()?),
        };
        Ok(Bytes {
            held,
            alloc: self.alloc,
        })
    }

    /// Where a heap block comes from.
    #[inline]
    pub fn allocator(&self) -> Global {
        self.alloc
    }

    /// The bytes.
    #[inline]
    pub fn as_slice(&self) -> &[u8]
        ensures { result.now ≡ self.now.items }
    {
        match &self.held {
            Held::Few(_, short) => short.as_slice(),
            Held::Many(_, block) => block.as_slice(),
        }
    }

    /// Where the field that begins at `start` ends: before a tab, or with the bytes.
    #[inline]
    pub fn field_end(&self, start: usize) -> usize
        requires { start ≤ length self.now.items }
        ensures end { IsFieldEnd self.now.items start result }
        ensures below { result < 2 ^ 63 }
    {
        match &self.held {
            Held::Few(_, short) => short.field_end(start),
            Held::Many(_, block) => field_end(block.as_slice(), start),
        }
    }

    /// The count.
    #[inline]
    pub fn count(&self) -> u8
        ensures { result ≡ self.now.count }
    {
        match &self.held {
            Held::Few(count, _) => *count,
            Held::Many(count, _) => *count,
        }
    }

    /// Counts anew.
    #[inline]
    pub fn set_count(&mut self, count: u8)
        ensures { self.new ≡ stored_as self.old.items count }
    {
        match &mut self.held {
            Held::Few(old, _) => *old = count,
            Held::Many(old, _) => *old = count,
        }
    }

    /// Puts other bytes in the place of those from `start` up to `end`. After a refusal nothing changed.
    #[inline]
    pub fn replace(&mut self, start: usize, end: usize, by: &[u8]) -> Result<(), NoMemory>
        requires order { start ≤ end }
        requires within { end ≤ length self.old.items }
        ensures ok { OnOk result (self.new
            ≡ stored_as (replaced self.old.items start end by.now) self.old.count) }
        ensures err { OnErr result (self.new ≡ self.old) }
    {
        match &mut self.held {
            Held::Few(count, short) => {
                if by.len() <= short.room() + (end - start) {
                    short.replace(start, end, by);
                    return Ok(());
                }
                let block = lengthened(self.alloc, short.as_slice(), start, end, by)?;
                self.held = Held::Many(*count, block);
                Ok(())
            }
            Held::Many(_, block) => replace(block, start, end, by),
        }
    }

    /// Brings the bytes from `start` up to `end` to a case. It takes no memory.
    #[inline]
    pub fn set_case(&mut self, start: usize, end: usize, case: Case)
        requires order { start ≤ end }
        requires within { end ≤ length self.old.items }
        ensures { self.new ≡ stored_as (replaced self.old.items start end
            (in_case case (slice_range self.old.items start end))) self.old.count }
    {
        match &mut self.held {
            Held::Few(_, short) => short.set_case(start, end, case),
            Held::Many(_, block) => case.put_on(&mut block[start..end]),
        }
    }

    /// Takes out the bytes from `start` up to `end`. It takes no memory.
    pub fn remove(&mut self, start: usize, end: usize)
        requires order { start ≤ end }
        requires within { end ≤ length self.old.items }
        ensures { self.new
            ≡ stored_as (take start self.old.items ++ drop end self.old.items) self.old.count }
    {
        match &mut self.held {
            Held::Few(_, short) => short.remove(start, end),
            Held::Many(_, block) => narrow(block, start, end, b""),
        }
    }

    /// Leaves the bytes from `start` up to `end` alone. It takes no memory.
    pub fn keep(&mut self, start: usize, end: usize)
        requires order { start ≤ end }
        requires within { end ≤ length self.old.items }
        ensures { self.new ≡ stored_as (slice_range self.old.items start end) self.old.count }
    {
        match &mut self.held {
            Held::Few(_, short) => short.keep(start, end),
            Held::Many(count, block) => {
                if end - start <= SHORT {
                    self.held = Held::Few(*count, Short::of(&block.as_slice()[start..end]));
                } else {
                    keep(block, start, end);
                }
            }
        }
    }

    /// Puts two parts in each other's place: that from `first` up to `first_end`, and that behind it from `second` up
    /// to `second_end`.
    pub fn swap(&mut self, first: usize, first_end: usize, second: usize, second_end: usize)
        requires first { first ≤ first_end }
        requires apart { first_end ≤ second }
        requires second { second ≤ second_end }
        requires within { second_end ≤ length self.old.items }
        ensures { self.new
            ≡ stored_as (parts_swapped self.old.items first first_end second second_end)
            self.old.count }
    {
        match &mut self.held {
            Held::Few(_, short) => short.swap(first, first_end, second, second_end),
            Held::Many(_, block) => swap_parts(
                block.as_mut_slice(),
                first,
                first_end,
                second,
                second_end,
            ),
        }
    }
}

// A heap block of bytes of which a part is replaced.
fn lengthened(
    alloc: Global,
    bytes: &[u8],
    start: usize,
    end: usize,
    by: &[u8],
) -> Result<Vec<u8>, NoMemory>
    requires order { start ≤ end }
    requires within { end ≤ length bytes.now }
    ensures { IfOk result (λ block. block.items ≡ replaced bytes.now start end by.now) }
{
    let mut block = Vec::with_capacity(alloc, bytes.len().saturating_add(by.len()))?;
    block.extend_from_slice(bytes)?;
    replace(&mut block, start, end, by)?;
    Ok(block)
}
