// Numbers in fields.
ghost use Rattle.std.specs.Prelude.{◌≡◌, ◌<◌, ◌≤◌, ◌^◌, length, IfOk, IfSome};
ghost use Rattle.ff_rec.specs.Number.{number, numeral, printed};

use crate::{Field, NoMemory};
use itoa::Buffer;
use std::alloc::Global;

/// So many digits are a number below 2^63, whichever they are.
const SHORT: usize = 18;

/// The number that the bytes of a field are: an optional `+` or `-`, then digits, within 64 bits with a sign.
pub fn read_number(bytes: &[u8]) -> Option<i64>
    ensures { result ≡ number bytes.now }
{
    if SHORT < bytes.len() {
        return parse_number(bytes);
    }
    match bytes {
        [b'-', digits @ ..] => Some(-(read_digits(digits)? as i64)),
        [b'+', digits @ ..] => Some(read_digits(digits)? as i64),
        digits => Some(read_digits(digits)? as i64),
    }
}

// The number that bytes of any length are. It takes three times as long.
fn parse_number(bytes: &[u8]) -> Option<i64>
    ensures { result ≡ number bytes.now }
{
    let text = std::str::from_utf8(bytes).ok()?;
    text.parse::<i64>().ok()
}

// The value of a few digits, at least one.
fn read_digits(digits: &[u8]) -> Option<u64>
    requires { length digits.now ≤ SHORT }
    ensures value { result ≡ numeral digits.now }
    ensures small { IfSome result (λ n. n < 10 ^ 18) }
{
    if digits.is_empty() {
        return None;
    }
    let mut n = 0;
    for digit in digits {
        if !digit.is_ascii_digit() {
            return None;
        }
        n = n * 10 + u64::from(*digit - b'0');
    }
    Some(n)
}

/// The number in decimal digits, with `-` in front where it is below zero.
pub fn print_number(alloc: Global, n: i128) -> Result<Field, NoMemory>
    ensures { IfOk result (λ f. f ≡ printed n) }
{
    let mut buffer = Buffer::new();
    Field::of_plain(alloc, buffer.format(n).as_bytes())
}
