// Parts of a slice that change places.
ghost use Rattle.std.specs.Prelude.{◌≡◌, ◌++◌, ◌≤◌, length, take, drop, slice_range};
ghost use Rattle.ff_rec.specs.Block.{parts_swapped};

/// Puts the bytes from `first` up to `first_end` and those from `second` up to `second_end` in each other's place.
pub fn swap_parts(
    bytes: &mut [u8],
    first: usize,
    first_end: usize,
    second: usize,
    second_end: usize,
)
    requires first { first ≤ first_end }
    requires apart { first_end ≤ second }
    requires second { second ≤ second_end }
    requires within { second_end ≤ length bytes.old }
    ensures { bytes.new ≡ parts_swapped bytes.old first first_end second second_end }
{
    turn(
        &mut bytes[first..second_end],
        first_end - first,
        second - first,
    );
}

// Puts the bytes from `right` on before all others, and those up to `left` behind all others.
fn turn(bytes: &mut [u8], left: usize, right: usize)
    requires order { left ≤ right }
    requires within { right ≤ length bytes.old }
    ensures { bytes.new
        ≡ drop right bytes.old ++ (slice_range bytes.old left right ++ take left bytes.old) }
{
    bytes.rotate_left(right);
    let behind = bytes.len() - right;
    bytes[behind..].rotate_left(left);
}
