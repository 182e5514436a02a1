// A record as the line that is read of it.
ghost use Rattle.std.specs.Prelude.{◌≡◌, ◌+◌, ◌<◌, ◌≤◌, ◌++◌, length, vec_len, vec_capacity};
ghost use Rattle.ff_rec.specs.Lines.{line_of};
ghost use Rattle.ff_soak.specs.Records.{soak_record};

use itoa::Buffer;

/// The most records of a soak.
pub const MOST_RECORDS: u64 = 10_000_000;

/// The most bytes of a record's line: a letter, two digits, a tab, three digits and a newline.
pub(crate) const LINE: usize = 8;

/// Appends the line of record `i` within the room that is reserved.
pub(crate) fn push_line(into: &mut Vec<u8>, i: u64)
    requires few { i ≤ MOST_RECORDS }
    requires room { vec_len into.old + LINE ≤ vec_capacity into.old }
    ensures bytes { into.new.items ≡ into.old.items ++ line_of (soak_record i) }
    ensures some { vec_len into.old < vec_len into.new }
    ensures short { vec_len into.new ≤ vec_len into.old + LINE }
    ensures keeps { vec_capacity into.old ≤ vec_capacity into.new }
{
    let mut buffer = Buffer::new();
    append(into, b"w");
    append(into, buffer.format(i * i % 11).as_bytes());
    append(into, b"\t");
    append(into, buffer.format(617 * i % 1000).as_bytes());
    append(into, b"\n");
}

// Appends bytes within the room that is reserved, which takes no memory.
fn append(into: &mut Vec<u8>, bytes: &[u8])
    requires { vec_len into.old + length bytes.now ≤ vec_capacity into.old }
    ensures bytes { into.new.items ≡ into.old.items ++ bytes.now }
    ensures len { vec_len into.new ≡ vec_len into.old + length bytes.now }
    ensures keeps { vec_capacity into.old ≤ vec_capacity into.new }
{
    if into.extend_from_slice(bytes).is_err() {
        unreachable!()
    }
}
