// Many bytes, in one heap block.
ghost use Rattle.std.specs.Prelude.{◌≡◌, ◌+◌, ◌++◌, ◌<◌, ◌≤◌, length, take, drop, slice_range, OnOk, OnErr};
ghost use Rattle.ff_rec.specs.Block.{replaced};

use crate::NoMemory;

/// Puts other bytes in the place of those from `start` up to `end`. After a refusal the block is unchanged.
pub fn replace(block: &mut Vec<u8>, start: usize, end: usize, by: &[u8]) -> Result<(), NoMemory>
    requires order { start ≤ end }
    requires within { end ≤ length block.old.items }
    ensures ok { OnOk result (block.new.items ≡ replaced block.old.items start end by.now) }
    ensures err { OnErr result (block.new.items ≡ block.old.items) }
{
    if by.len() <= end - start {
        narrow(block, start, end, by);
        return Ok(());
    }
    widen(block, start, end, by)
}

/// Puts in no more bytes than stand there. It takes no memory.
pub fn narrow(block: &mut Vec<u8>, start: usize, end: usize, by: &[u8])
    requires fewer { start + length by.now ≤ end }
    requires within { end ≤ length block.old.items }
    ensures { block.new.items ≡ replaced block.old.items start end by.now }
{
    let last = start + by.len();
    block.copy_within(end.., last);
    block.truncate(block.len() - (end - last));
    block[start..last].copy_from_slice(by);
}

// Puts in more bytes than stand there.
fn widen(block: &mut Vec<u8>, start: usize, end: usize, by: &[u8]) -> Result<(), NoMemory>
    requires order { start ≤ end }
    requires within { end ≤ length block.old.items }
    requires more { end < start + length by.now }
    ensures ok { OnOk result (block.new.items ≡ replaced block.old.items start end by.now) }
    ensures err { OnErr result (block.new.items ≡ block.old.items) }
{
    let len = block.len();
    let (_, more) = by.split_at(end - start);
    block.reserve_exact(more.len())?;
    block.extend_from_slice(more)?;
    block.copy_within(end..len, end + more.len());
    block[start..start + by.len()].copy_from_slice(by);
    Ok(())
}

/// Leaves the bytes from `start` up to `end` alone. It takes no memory.
pub fn keep(block: &mut Vec<u8>, start: usize, end: usize)
    requires order { start ≤ end }
    requires within { end ≤ length block.old.items }
    ensures { block.new.items ≡ slice_range block.old.items start end }
{
    block.truncate(end);
    narrow(block, 0, start, b"");
}
