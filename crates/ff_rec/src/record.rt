// A record: one block of bytes that holds its fields joined by tabs.
ghost use Rattle.std.specs.Prelude.{◌≡◌, ◌↔◌, ◌-◌, ◌<◌, ◌≤◌, [], ◌∷◌, ◌++◌, length, take, slice_set, Some, None, IfOk, IfSome, OnSome, OnOk, OnErr, IsErrOf, MatchOption};
ghost use Rattle.ff_rec.specs.declared.fault.PushFault.TheVariants.{Full};
ghost use Rattle.ff_rec.specs.declared.fault.CutFault.TheVariants.{TooManyFields};
ghost use Rattle.ff_rec.specs.declared.bytes.short.TheConstants.{SHORT};
ghost use Rattle.ff_rec.specs.declared.near.TheConstants.{NEAR};
ghost use Rattle.ff_rec.specs.Fields.{field_at, number_in};
ghost use Rattle.ff_rec.specs.Lines.{IsPlain, IsRec, cut, tabs, joined, line_of};
ghost use Rattle.ff_rec.specs.Number.{printed};
ghost use Rattle.ff_rec.specs.Pieces.{Lacks};

mod edits;

use crate::block::{place, push_field, put};
use crate::bytes::Bytes;
use crate::{CutFault, Field, Kept, MOST_FIELDS, NoMemory, PushFault, read_number};
use itoa::Buffer;
use std::alloc::Global;
use std::marker::Model;

/// 1 to 64 fields, numbered from 1.
#[derive(Debug, Drop)]
pub struct Record {
    block: Bytes,
}

impl Model for Record {
    ghost use Rattle.std.specs.Prelude.{List, ℕ};
    ghost use Rattle.ff_rec.specs.Lines.{cut};
    ghost use Rattle.ff_rec.specs.Block.{IsBlock};

    ghost Value = { List (List ℕ) };

    ghost view = { λ r. cut 9 r.block.items };

    ghost invariant = { λ r. IsBlock r.block.items r.block.count };
}

impl Record {
    /// The record of that one field.
    pub fn one(alloc: Global, first: &Field) -> Result<Record, NoMemory>
        ensures { IfOk result (λ r. r ≡ first.now ∷ []) }
    {
        Ok(Record {
            block: Bytes::of(alloc, first.bytes(), 1)?,
        })
    }

    /// The record of one field of these bytes.
    pub fn of_plain(alloc: Global, bytes: &[u8]) -> Result<Record, NoMemory>
        requires { IsPlain bytes.now }
        ensures { IfOk result (λ r. r ≡ bytes.now ∷ []) }
    {
        Ok(Record {
            block: Bytes::of(alloc, bytes, 1)?,
        })
    }

    /// A line, without its newline, cut at its tabs.
    #[inline(always)]
    pub fn of_line(alloc: Global, line: &[u8]) -> Result<Record, CutFault>
        requires { Lacks 10 line.now }
        ensures ok { IfOk result (λ r. r ≡ cut 9 line.now) }
        ensures too_many { IsErrOf result TooManyFields → 63 < tabs line.now }
        ensures few { OnOk result (tabs line.now ≤ 63) }
    {
        Ok(Record {
            block: Bytes::of_line(alloc, line)?,
        })
    }

    /// As `of_line` of the first `len` bytes of a longer text. It takes no memory.
    #[inline(always)]
    pub(crate) fn of_near_line(alloc: Global, text: &[u8], len: usize) -> Record
        requires near { len ≤ SHORT }
        requires long { NEAR ≤ length text.now }
        requires clean { Lacks 10 (take len text.now) }
        ensures { result ≡ cut 9 (take len text.now) }
    {
        Record {
            block: Bytes::of_near_line(alloc, text, len),
        }
    }

    /// How many fields it has.
    pub fn len(&self) -> usize
        ensures len { result ≡ length self.now }
        ensures within { IsRec self.now }
    {
        usize::from(self.block.count())
    }

    /// The bytes of field `k`, counted from 1.
    pub fn field(&self, k: usize) -> Option<&[u8]>
        ensures field { MatchOption result (field_at k self.now ≡ None)
            (λ bytes. field_at k self.now ≡ Some bytes.now) }
        ensures plain { IfSome result (λ bytes. IsPlain bytes.now) }
    {
        let count = usize::from(self.block.count());
        if k == 0 || count < k {
            return None;
        }
        let (start, end) = place(&self.block, k - 1);
        Some(&self.block.as_slice()[start..end])
    }

    /// The number in field `k`, counted from 1, where the field is there and is a number.
    pub fn number(&self, k: usize) -> Option<i64>
        ensures number { result ≡ number_in k self.now }
        ensures low { OnSome result (1 ≤ k) }
        ensures high { OnSome result (k ≤ length self.now) }
    {
        read_number(self.field(k)?)
    }

    /// Where its memory comes from.
    pub fn allocator(&self) -> Global {
        self.block.allocator()
    }

    /// The fields joined by single tabs.
    #[inline(always)]
    pub fn joined(&self) -> &[u8]
        ensures { result.now ≡ joined self.now }
    {
        self.block.as_slice()
    }

    /// Adds a last field. After a refusal the record is unchanged.
    pub fn push(&mut self, field: &Field) -> Result<(), PushFault>
        ensures ok { OnOk result (self.new ≡ self.old ++ field.now ∷ []) }
        ensures full { IsErrOf result Full ↔ (length self.old ≡ MOST_FIELDS) }
        ensures err { OnErr result (self.new ≡ self.old) }
    {
        let count = self.block.count();
        if usize::from(count) == MOST_FIELDS {
            return Err(PushFault::Full);
        }
        match push_field(&mut self.block, field.bytes()) {
            Ok(()) => {
                self.block.set_count(count + 1);
                Ok(())
            }
            Err(NoMemory) => Err(PushFault::NoMemory),
        }
    }

    /// Puts other bytes in the place of field `k`, counted from 1. After a refusal the record is unchanged.
    pub fn set(&mut self, k: usize, field: &Field) -> Result<(), NoMemory>
        requires low { 1 ≤ k }
        requires high { k ≤ length self.old }
        ensures ok { OnOk result (self.new ≡ slice_set self.old (k - 1) field.now) }
        ensures err { OnErr result (self.new ≡ self.old) }
    {
        put(&mut self.block, k - 1, field.bytes())
    }

    /// Puts a number, as it is printed, in the place of field `k`, counted from 1. It makes no block of its own where
    /// the digits fit. After a refusal the record is unchanged.
    pub fn set_number(&mut self, k: usize, n: i64) -> Result<(), NoMemory>
        requires low { 1 ≤ k }
        requires high { k ≤ length self.old }
        ensures ok { OnOk result (self.new ≡ slice_set self.old (k - 1) (printed n)) }
        ensures err { OnErr result (self.new ≡ self.old) }
    {
        let mut buffer = Buffer::new();
        put(&mut self.block, k - 1, buffer.format(n).as_bytes())
    }
}

impl Kept for Record {
    fn copy(&self) -> Result<Record, NoMemory> {
        Ok(Record {
            block: self.block.copy()?,
        })
    }
}

/// Appends the text of a record: its fields joined by tabs, and a newline. After a refusal `into` is unchanged.
#[inline(always)]
pub fn print_record(r: &Record, into: &mut Vec<u8>) -> Result<(), NoMemory>
    ensures ok { OnOk result (into.new.items ≡ into.old.items ++ line_of r.now) }
    ensures err { OnErr result (into.new.items ≡ into.old.items) }
{
    let line = r.joined();
    into.reserve(line.len() + 1)?;
    into.extend_from_slice(line)?;
    into.push(b'\n')?;
    Ok(())
}
