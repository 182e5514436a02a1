// A block of bytes that holds the fields of a record joined by tabs: where a field stands, and how one is replaced or added.
ghost use Rattle.std.specs.Prelude.{◌≡◌, ℕ, ◌+◌, ◌∷◌, ◌++◌, ◌<◌, ◌≤◌, length, slice_set, OnOk, OnErr};
ghost use Rattle.ff_rec.specs.Lines.{IsPlain, cut};
ghost use Rattle.ff_rec.specs.Block.{IsBlock, IsStart, IsPlace};
ghost use Rattle.ff_rec.specs.Stored.{stored_as};

mod edits;

use crate::NoMemory;
use crate::bytes::Bytes;
pub use edits::{exchange, keep, set_case, take_out};

/// Where field `k`, counted from 0, begins and ends.
#[inline]
pub fn place(block: &Bytes, k: usize) -> (usize, usize)
    requires count { block.now.count ≡ length (cut 9 block.now.items) }
    requires there { k < length (cut 9 block.now.items) }
    ensures { IsPlace block.now.items k result.0 result.1 }
{
    let count = usize::from(block.count());
    let start = start_of(block, k);
    if k + 1 == count {
        return (start, block.as_slice().len());
    }
    (start, block.field_end(start))
}

// Where field `k`, counted from 0, begins.
#[inline]
fn start_of(block: &Bytes, k: usize) -> usize
    requires { k < length (cut 9 block.now.items) }
    ensures { IsStart block.now.items k result }
{
    let mut start = 0;
    for i in 0..k {
        start = block.field_end(start) + 1;
    }
    start
}

/// Puts other bytes in the place of field `k`, counted from 0. After a refusal the block is unchanged.
pub fn put(block: &mut Bytes, k: usize, by: &[u8]) -> Result<(), NoMemory>
    requires count { block.old.count ≡ length (cut 9 block.old.items) }
    requires there { k < length (cut 9 block.old.items) }
    requires plain { IsPlain by.now }
    ensures ok { OnOk result (cut 9 block.new.items ≡ slice_set (cut 9 block.old.items) k by.now) }
    ensures err { OnErr result (block.new ≡ block.old) }
    ensures kept { IsBlock block.old.items block.old.count
        → IsBlock block.new.items block.new.count }
{
    let (start, end) = place(block, k);
    block.replace(start, end, by)
}

/// Adds a field behind a tab. After a refusal the block is unchanged.
pub fn push_field(block: &mut Bytes, field: &[u8]) -> Result<(), NoMemory>
    ensures ok { OnOk result (block.new
        ≡ stored_as (block.old.items ++ 9 ∷ field.now) block.old.count) }
    ensures err { OnErr result (block.new ≡ block.old) }
{
    let len = block.as_slice().len();
    block.replace(len, len, b"\t")?;
    match block.replace(len + 1, len + 1, field) {
        Ok(()) => Ok(()),
        Err(NoMemory) => {
            block.remove(len, len + 1);
            Err(NoMemory)
        }
    }
}

/// Puts a field and a tab before all others. After a refusal the block is unchanged.
pub fn push_front(block: &mut Bytes, field: &[u8]) -> Result<(), NoMemory>
    ensures ok { OnOk result (block.new
        ≡ stored_as (field.now ++ 9 ∷ block.old.items) block.old.count) }
    ensures err { OnErr result (block.new ≡ block.old) }
{
    block.replace(0, 0, b"\t")?;
    match block.replace(0, 0, field) {
        Ok(()) => Ok(()),
        Err(NoMemory) => {
            block.remove(0, 1);
            Err(NoMemory)
        }
    }
}
