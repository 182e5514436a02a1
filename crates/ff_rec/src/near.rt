// The first bytes of a text, all looked at at once.
ghost use Rattle.std.specs.Prelude.{◌≡◌, ◌≤◌, length, take};
ghost use Rattle.memchr.specs.Find.{IsFirst, Passes, is_byte};
ghost use Rattle.ff_rec.specs.Lines.{tabs};

use std::simd::prelude::*;

/// So many bytes fill a vector.
pub const NEAR: usize = 32;

/// So many bytes fill half a vector.
pub const HALF: usize = 16;

/// The first place of a byte among the first `NEAR`.
#[inline(always)]
pub fn first_near(byte: u8, text: &[u8]) -> Option<usize>
    requires { NEAR ≤ length text.now }
    ensures { IsFirst (Passes (is_byte byte) text.now) 0 NEAR result }
{
    let places = u8x32::from_slice(text)
        .simd_eq(u8x32::splat(byte))
        .to_bitmask();
    if places == 0 {
        return None;
    }
    Some(places.trailing_zeros() as usize)
}

/// The first place of a byte among the first `HALF`.
#[inline(always)]
pub fn first_half(byte: u8, text: &[u8]) -> Option<usize>
    requires { HALF ≤ length text.now }
    ensures { IsFirst (Passes (is_byte byte) text.now) 0 HALF result }
{
    let places = u8x16::from_slice(text)
        .simd_eq(u8x16::splat(byte))
        .to_bitmask();
    if places == 0 {
        return None;
    }
    Some(places.trailing_zeros() as usize)
}

/// How many tabs stand among the first `len` bytes, which are `NEAR` at most.
#[inline(always)]
pub fn tabs_near(text: &[u8], len: usize) -> u8
    requires near { len ≤ NEAR }
    requires within { NEAR ≤ length text.now }
    ensures count { result ≡ tabs (take len text.now) }
    ensures few { result ≤ NEAR }
{
    let places = u8x32::from_slice(text)
        .simd_eq(u8x32::splat(b'\t'))
        .to_bitmask();
    (places % (1 << len)).count_ones() as u8
}
