// Fields of a block that go, change places and change their case.
ghost use Rattle.std.specs.Prelude.{◌≡◌, ◌<◌, ◌≤◌, [], length, slice_index_or, slice_set};
ghost use Rattle.std.specs.List.{remove, swap};
ghost use Rattle.ff_rec.specs.Block.{IsBlock};
ghost use Rattle.ff_rec.specs.Cases.{in_case};
ghost use Rattle.ff_rec.specs.Lines.{cut};
ghost use Rattle.ff_rec.specs.Stored.{stored_as};

use super::place;
use crate::Case;
use crate::bytes::Bytes;

/// Takes field `k`, counted from 0, out of two or more, with the tab behind it, or the one before it at the end.
pub fn take_out(block: &mut Bytes, k: usize)
    requires count { block.old.count ≡ length (cut 9 block.old.items) }
    requires there { k < length (cut 9 block.old.items) }
    requires others { 2 ≤ length (cut 9 block.old.items) }
    ensures fields { cut 9 block.new.items ≡ remove (cut 9 block.old.items) k }
    ensures count { block.new.count ≡ block.old.count }
{
    let (start, end) = place(block, k);
    let len = block.as_slice().len();
    if end < len {
        block.remove(start, end + 1);
    } else {
        block.remove(start - 1, end);
    }
}

/// Brings field `k`, counted from 0, to a case.
pub fn set_case(block: &mut Bytes, k: usize, case: Case)
    requires block { IsBlock block.old.items block.old.count }
    requires there { k < length (cut 9 block.old.items) }
    ensures fields { cut 9 block.new.items
        ≡ slice_set (cut 9 block.old.items) k (in_case case (slice_index_or (cut 9 block.old.items) k [])) }
    ensures block { IsBlock block.new.items block.new.count }
{
    let (start, end) = place(block, k);
    block.set_case(start, end, case);
}

/// Leaves the bytes of field `k`, counted from 0, alone.
pub fn keep(block: &mut Bytes, k: usize)
    requires count { block.old.count ≡ length (cut 9 block.old.items) }
    requires there { k < length (cut 9 block.old.items) }
    ensures { block.new ≡ stored_as (slice_index_or (cut 9 block.old.items) k []) block.old.count }
{
    let (start, end) = place(block, k);
    block.keep(start, end);
}

/// Puts the fields `i` and `j`, counted from 0, in each other's place.
pub fn exchange(block: &mut Bytes, i: usize, j: usize)
    requires count { block.old.count ≡ length (cut 9 block.old.items) }
    requires first { i < length (cut 9 block.old.items) }
    requires second { j < length (cut 9 block.old.items) }
    ensures fields { cut 9 block.new.items ≡ swap (cut 9 block.old.items) i j }
    ensures count { block.new.count ≡ block.old.count }
{
    if i < j {
        exchange_ordered(block, i, j);
    } else if j < i {
        exchange_ordered(block, j, i);
    }
}

// Puts a field and one behind it in each other's place.
fn exchange_ordered(block: &mut Bytes, i: usize, j: usize)
    requires count { block.old.count ≡ length (cut 9 block.old.items) }
    requires order { i < j }
    requires there { j < length (cut 9 block.old.items) }
    ensures fields { cut 9 block.new.items ≡ swap (cut 9 block.old.items) i j }
    ensures count { block.new.count ≡ block.old.count }
{
    let (first, first_end) = place(block, i);
    let (second, second_end) = place(block, j);
    block.swap(first, first_end, second, second_end);
}
