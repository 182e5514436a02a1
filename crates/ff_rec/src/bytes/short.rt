// A few bytes that stand in place.
ghost use Rattle.std.specs.Prelude.{◌≡◌, ◌+◌, ◌-◌, ◌^◌, ◌++◌, ◌<◌, ◌≤◌, length, take, drop, slice_range};
ghost use Rattle.ff_rec.specs.Block.{IsFieldEnd, parts_swapped, replaced};
ghost use Rattle.ff_rec.specs.Cases.{in_case};
ghost use Rattle.ff_rec.specs.Lines.{tabs};

use super::parts::swap_parts;
use crate::Case;
use crate::near::{HALF, first_half};
use crate::tabs::{count_few, field_end};
use std::marker::Model;

/// So many bytes have room in place. With their length and what stands before them they fill 40 bytes.
pub const SHORT: usize = 31;

/// At most `SHORT` bytes.
#[derive(Debug, Drop)]
pub struct Short {
    // It takes no room, and aligns the bytes, so that they are moved by whole words.
    align: [u64; 0],
    len: u8,
    bytes: [u8; SHORT],
}

impl Model for Short {
    ghost use Rattle.std.specs.Prelude.{List, ℕ, ◌≤◌, take};

    ghost Value = { List ℕ };

    ghost view = { λ s. take s.len s.bytes };

    ghost invariant = { λ s. s.len ≤ 31 };
}

impl Short {
    /// These bytes.
    #[inline]
    pub fn of(bytes: &[u8]) -> Short
        requires { length bytes.now ≤ SHORT }
        ensures { result ≡ bytes.now }
    {
        let mut room = [0; SHORT];
        room[..bytes.len()].copy_from_slice(bytes);
        Short {
            align: [],
            len: bytes.len() as u8,
            bytes: room,
        }
    }

    /// The first `len` bytes of a text. As many as have room are copied, which takes no call: what stands behind `len` counts for
    /// nothing.
    #[inline(always)]
    pub fn of_front(text: &[u8], len: usize) -> Short
        requires few { len ≤ SHORT }
        requires long { SHORT ≤ length text.now }
        ensures { result ≡ take len text.now }
    {
        let mut bytes = [0; SHORT];
        bytes.copy_from_slice(&text[..SHORT]);
        Short {
            align: [],
            len: len as u8,
            bytes,
        }
    }

    /// The bytes of a line, and how many tabs stand among them.
    #[inline]
    pub fn of_line(line: &[u8]) -> (Short, u8)
        requires { length line.now ≤ SHORT }
        ensures bytes { result.0 ≡ line.now }
        ensures tabs { result.1 ≡ tabs line.now }
        ensures within { result.1 ≤ SHORT }
    {
        let mut room = [0; SHORT];
        room[..line.len()].copy_from_slice(line);
        // Behind the line stand zeros, which are no tabs: to count in whole steps of eight bytes spares a loop over the last few.
        let tab_count = count_few(&room[..line.len().next_multiple_of(8).min(SHORT)]);
        let short = Short {
            align: [],
            len: line.len() as u8,
            bytes: room,
        };
        (short, tab_count)
    }

    /// The bytes.
    #[inline]
    pub fn as_slice(&self) -> &[u8]
        ensures bytes { result.now ≡ self.now }
        ensures few { length self.now ≤ SHORT }
    {
        &self.bytes[..usize::from(self.len)]
    }

    /// Where the field that begins at `start` ends: before a tab, or with the bytes.
    #[inline]
    pub fn field_end(&self, start: usize) -> usize
        requires { start ≤ length self.now }
        ensures end { IsFieldEnd self.now start result }
        ensures below { result < 2 ^ 63 }
    {
        let len = usize::from(self.len);
        if SHORT < start + HALF || start + HALF < len {
            return field_end(self.as_slice(), start);
        }
        // A tab that is found behind the bytes is none of theirs.
        match first_half(b'\t', &self.bytes[start..]) {
            Some(at) => len.min(start + at),
            None => len,
        }
    }

    /// How many bytes more have room.
    #[inline]
    pub fn room(&self) -> usize
        ensures { length self.now + result ≡ SHORT }
    {
        SHORT - usize::from(self.len)
    }

    /// An equal value.
    #[inline]
    pub fn copy(&self) -> Short
        ensures { result ≡ self.now }
    {
        Short {
            align: [],
            len: self.len,
            bytes: self.bytes,
        }
    }

    /// Puts other bytes in the place of those from `start` up to `end`.
    #[inline]
    pub fn replace(&mut self, start: usize, end: usize, by: &[u8])
        requires order { start ≤ end }
        requires within { end ≤ length self.old }
        requires room { start + length by.now + (length self.old - end) ≤ SHORT }
        ensures { self.new ≡ replaced self.old start end by.now }
    {
        let len = usize::from(self.len);
        let last = start + by.len();
        self.bytes.copy_within(end..len, last);
        self.bytes[start..last].copy_from_slice(by);
        self.len = (last + (len - end)) as u8;
    }

    /// Takes out the bytes from `start` up to `end`.
    #[inline]
    pub fn remove(&mut self, start: usize, end: usize)
        requires order { start ≤ end }
        requires within { end ≤ length self.old }
        ensures { self.new ≡ take start self.old ++ drop end self.old }
    {
        let len = usize::from(self.len);
        self.bytes.copy_within(end..len, start);
        self.len = (start + (len - end)) as u8;
    }

    /// Leaves the bytes from `start` up to `end` alone.
    #[inline]
    pub fn keep(&mut self, start: usize, end: usize)
        requires order { start ≤ end }
        requires within { end ≤ length self.old }
        ensures { self.new ≡ slice_range self.old start end }
    {
        self.bytes.copy_within(start..end, 0);
        self.len = (end - start) as u8;
    }

    /// Brings the bytes from `start` up to `end` to a case.
    #[inline]
    pub fn set_case(&mut self, start: usize, end: usize, case: Case)
        requires order { start ≤ end }
        requires within { end ≤ length self.old }
        ensures { self.new ≡ replaced self.old start end (in_case case (slice_range self.old start end)) }
    {
        case.put_on(&mut self.bytes[start..end]);
    }

    /// Puts two parts in each other's place: that from `first` up to `first_end`, and that behind it from `second` up
    /// to `second_end`.
    pub fn swap(&mut self, first: usize, first_end: usize, second: usize, second_end: usize)
        requires first { first ≤ first_end }
        requires apart { first_end ≤ second }
        requires second { second ≤ second_end }
        requires within { second_end ≤ length self.old }
        ensures { self.new ≡ parts_swapped self.old first first_end second second_end }
    {
        let len = usize::from(self.len);
        swap_parts(&mut self.bytes[..len], first, first_end, second, second_end);
    }
}
