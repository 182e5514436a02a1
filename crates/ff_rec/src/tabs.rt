// Tabs: how many stand in a line, and where they end its fields.
ghost use Rattle.std.specs.Prelude.{◌≡◌, ◌<◌, ◌≤◌, ◌^◌, length};
ghost use Rattle.ff_rec.specs.Block.{IsFieldEnd};
ghost use Rattle.ff_rec.specs.Lines.{tabs};

use crate::split_near;

/// So many bytes are counted in one byte, which compiles to wide vectors.
const PART: usize = 255;

/// How many tabs stand in a line.
pub fn count_tabs(line: &[u8]) -> usize
    ensures count { result ≡ tabs line.now }
    ensures within { result ≤ length line.now }
{
    let mut count = 0;
    let mut rest = line;
    while !rest.is_empty() {
        let (part, behind) = rest.split_at(rest.len().min(PART));
        count += usize::from(count_few(part));
        rest = behind;
    }
    count
}

/// How many tabs stand in a part that is short enough for its count to be a byte.
#[inline]
pub fn count_few(part: &[u8]) -> u8
    requires { length part.now ≤ PART }
    ensures count { result ≡ tabs part.now }
    ensures within { result ≤ length part.now }
{
    let mut count = 0;
    for byte in part {
        count += u8::from(*byte == b'\t');
    }
    count
}

/// Where the field that begins at `start` ends: before a tab, or with the bytes.
pub fn field_end(bytes: &[u8], start: usize) -> usize
    requires { start ≤ length bytes.now }
    ensures end { IsFieldEnd bytes.now start result }
    ensures below { result < 2 ^ 63 }
{
    let (field, _) = split_near(&bytes[start..], b'\t');
    start + field.len()
}
