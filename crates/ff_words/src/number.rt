// Numbers among words.
ghost use Rattle.std.specs.Prelude.{◌≡◌, ◌<◌, ◌-◌, ◌^◌};
ghost use Rattle.ff_words.specs.Numbers.{number_in};

use ff_rec::read_number;

/// The number from `least` to `most` that a text is, without a sign and without a zero in front.
pub fn read_number_in(text: &str, least: u64, most: u64) -> Option<u64>
    requires { most < 2 ^ 63 }
    ensures { result ≡ number_in least most text.now }
{
    let n = read_plain(text.as_bytes())?;
    (least <= n && n <= most).then_some(n)
}

// The number that a text is so, within the limits of `i64` alone.
fn read_plain(text: &[u8]) -> Option<u64>
    ensures { result ≡ number_in 0 (2 ^ 63 - 1) text.now }
{
    let [first, ..] = text else {
        return None;
    };
    if !first.is_ascii_digit() || (*first == b'0' && text.len() > 1) {
        return None;
    }
    let n = read_number(text)?;
    Some(n as u64)
}
