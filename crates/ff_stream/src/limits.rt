// How much of a line is read.
ghost use Rattle.std.specs.Prelude.{◌≡◌, ◌≤◌};
ghost use Rattle.ff_net.specs.Versions.{line_bytes};

use ff_net::Version;
use ff_rec::{LONGEST_LINE_ONE, LONGEST_LINE_TWO};

/// The most bytes of a line, its newline not counted.
pub(crate) fn line_limit(version: Version) -> usize
    ensures bytes { result ≡ line_bytes version }
    ensures some { 1 ≤ result }
{
    match version {
        Version::One => LONGEST_LINE_ONE,
        Version::Two => LONGEST_LINE_TWO,
    }
}
