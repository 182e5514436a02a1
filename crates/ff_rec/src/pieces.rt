// Bytes cut at a separator, one piece at a time.
ghost use Rattle.std.specs.Prelude.{◌≡◌, ◌∷◌, ◌+◌, ◌<◌, ◌≤◌, length, take, MatchOption};
ghost use Rattle.ff_rec.specs.Lines.{cut};
ghost use Rattle.ff_rec.specs.Pieces.{rest_cut, whole_of, Lacks};

use crate::near::{NEAR, first_near};
use memchr::memchr;

/// So many bytes are looked at one by one before a search by wide vectors, which takes longer to begin.
const FEW: usize = 12;

/// The first piece, and what stands behind the separator that ends it, if there is one.
#[inline(always)]
pub fn split(bytes: &[u8], separator: u8) -> (&[u8], Option<&[u8]>)
    ensures pieces { cut separator bytes.now ≡ result.0.now ∷ rest_cut separator result.1 }
    ensures whole { bytes.now ≡ whole_of separator result.0.now result.1 }
    ensures clean { Lacks separator result.0.now }
    ensures shorter { MatchOption result.1 (length result.0.now ≡ length bytes.now)
        (λ rest. length result.0.now + length rest.now < length bytes.now) }
{
    if NEAR <= bytes.len()
        && let Some(at) = first_near(separator, bytes)
    {
        return (&bytes[..at], Some(&bytes[at + 1..]));
    }
    split_far(bytes, separator)
}

// As `split`, by a search that takes longer to begin.
#[inline(always)]
fn split_far(bytes: &[u8], separator: u8) -> (&[u8], Option<&[u8]>)
    ensures pieces { cut separator bytes.now ≡ result.0.now ∷ rest_cut separator result.1 }
    ensures whole { bytes.now ≡ whole_of separator result.0.now result.1 }
    ensures clean { Lacks separator result.0.now }
    ensures shorter { MatchOption result.1 (length result.0.now ≡ length bytes.now)
        (λ rest. length result.0.now + length rest.now < length bytes.now) }
{
    match memchr(separator, bytes) {
        None => (bytes, None),
        Some(at) => (&bytes[..at], Some(&bytes[at + 1..])),
    }
}

/// As `split`, and quicker where few bytes are given in all.
pub fn split_near(bytes: &[u8], separator: u8) -> (&[u8], Option<&[u8]>)
    ensures pieces { cut separator bytes.now ≡ result.0.now ∷ rest_cut separator result.1 }
    ensures whole { bytes.now ≡ whole_of separator result.0.now result.1 }
    ensures clean { Lacks separator result.0.now }
    ensures shorter { MatchOption result.1 (length result.0.now ≡ length bytes.now)
        (λ rest. length result.0.now + length rest.now < length bytes.now) }
{
    let near = lacking(bytes, separator);
    if near < bytes.len() && bytes[near] == separator {
        return (&bytes[..near], Some(&bytes[near + 1..]));
    }
    let (piece, rest) = split_far(&bytes[near..], separator);
    (&bytes[..near + piece.len()], rest)
}

// How many bytes stand before the first separator, up to so many.
fn lacking(bytes: &[u8], separator: u8) -> usize
    ensures within { result ≤ length bytes.now }
    ensures clean { Lacks separator (take result bytes.now) }
{
    let most = bytes.len().min(FEW);
    for at in 0..most {
        if bytes[at] == separator {
            return at;
        }
    }
    most
}
