// The summary of a text.
ghost use Rattle.std.specs.Prelude.{◌≡◌, ◌<◌, ◌≤◌, ◌^◌, ◌∷◌, length};
ghost use Rattle.ff_ops.specs.FoldOps.{above, below};
ghost use Rattle.ff_ops.specs.FoldSums.{of_number};
ghost use Rattle.ff_rec.specs.Fields.{number_in};
ghost use Rattle.ff_rec.specs.Lines.{cut, records};
ghost use Rattle.ff_soak.specs.Summaries.{summary_of};

use crate::Summary;
use ff_rec::{read_number, split};

/// The summary of the records of a text, which came of so many.
pub(crate) fn summarize(made: u64, bytes: &[u8]) -> Summary
    ensures { result ≡ summary_of made (records bytes.now) }
{
    let mut keys = 0;
    let mut plus = 0;
    let mut minus = 0;
    let mut rest = bytes;
    while !rest.is_empty() {
        let (line, behind) = next_line(rest);
        let number = second_number(line);
        keys += 1;
        plus += above(number);
        minus += below(number);
        rest = behind;
    }
    Summary {
        records: made,
        keys,
        total: plus as i128 - minus as i128,
    }
}

// The first line of a text, and what stands behind it.
fn next_line(text: &[u8]) -> (&[u8], &[u8])
    requires { 0 < length text.now }
    ensures records { records text.now ≡ cut 9 result.0.now ∷ records result.1.now }
    ensures shorter { length result.1.now < length text.now }
{
    let (line, more) = split(text, b'\n');
    match more {
        Some(behind) => (line, behind),
        None => (line, &[]),
    }
}

// A number above 0, and else 0.
fn above(number: Option<i64>) -> u128
    ensures value { result ≡ of_number above number }
    ensures small { result < 2 ^ 63 }
{
    match number {
        Some(n) if 0 < n => n as u128,
        _ => 0,
    }
}

// The absolute value of a number below 0, and else 0.
fn below(number: Option<i64>) -> u128
    ensures value { result ≡ of_number below number }
    ensures small { result ≤ 2 ^ 63 }
{
    match number {
        Some(n) if n < 0 => u128::from(n.unsigned_abs()),
        _ => 0,
    }
}

// The number in the second field of a line.
fn second_number(line: &[u8]) -> Option<i64>
    ensures { result ≡ number_in 2 (cut 9 line.now) }
{
    let (_, behind) = split(line, b'\t');
    let (field, _) = split(behind?, b'\t');
    read_number(field)
}
