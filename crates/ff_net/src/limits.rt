// The limits of networks, each by its name.
ghost use Rattle.std.specs.Prelude.{◌≡◌};
ghost use Rattle.ff_net.specs.Limits.{most_units};

use crate::Version;

/// How many networks may stand one in another.
pub(crate) const MOST_DEPTH: usize = 16;

/// The most parts of a pipe or comb, the most workers or copies of a set, and the last number of a field.
pub(crate) const MOST_PARTS: u32 = 64;

/// The most edges of a plan.
pub(crate) const MOST_EDGES: u64 = 2048;

/// The most units of a plan.
pub(crate) fn most_units(version: Version) -> u64
    ensures { result ≡ most_units version }
{
    match version {
        Version::One => 128,
        Version::Two => 256,
    }
}
