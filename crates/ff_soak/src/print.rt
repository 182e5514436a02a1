// A summary, printed.
ghost use Rattle.std.specs.Prelude.{◌≡◌, ◌++◌, OnOk};
ghost use Rattle.ff_soak.specs.Printing.{named, summary_text};

use crate::Summary;
use ff_rec::NoMemory;
use itoa::Buffer;

/// Appends the three lines of a summary. After a refusal some of it may have been appended.
pub fn print_summary(summary: &Summary, into: &mut Vec<u8>) -> Result<(), NoMemory>
    ensures { OnOk result (into.new.items ≡ into.old.items ++ summary_text summary.now) }
{
    print_named(b"records", i128::from(summary.records), into)?;
    print_named(b"keys", i128::from(summary.keys), into)?;
    print_named(b"total", summary.total, into)
}

// Appends a line of a name and a number.
fn print_named(name: &[u8], n: i128, into: &mut Vec<u8>) -> Result<(), NoMemory>
    ensures { OnOk result (into.new.items ≡ into.old.items ++ named name.now n) }
{
    into.extend_from_slice(name)?;
    into.push(b' ')?;
    into.extend_from_slice(Buffer::new().format(n).as_bytes())?;
    into.push(b'\n')?;
    Ok(())
}
