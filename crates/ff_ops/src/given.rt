// The arguments of an operation by their places, counted from 0.
ghost use Rattle.std.specs.Prelude.{◌≡◌, IfOk};
ghost use Rattle.ff_ops.specs.Given.{number_at, count_at, cmp_at, text_at};

use crate::{Arg, Needle};
use ff_rec::{Cmp, Field, Kept, NoMemory};
use std::alloc::Global;

/// The number at a place; 0 where there is none.
pub(crate) fn number_at(args: &[Arg], k: usize) -> i64
    ensures { result ≡ number_at args.now k }
{
    match args.get(k) {
        Some(Arg::Num(n)) => *n,
        _ => 0,
    }
}

/// The number at a place as a count or a field number, of 32 bits; 0 for any other number.
pub(crate) fn count_at(args: &[Arg], k: usize) -> u32
    ensures { result ≡ count_at args.now k }
{
    u32::try_from(number_at(args, k)).unwrap_or(0)
}

/// The comparison at a place; equality where there is none.
pub(crate) fn cmp_at(args: &[Arg], k: usize) -> Cmp
    ensures { result ≡ cmp_at args.now k }
{
    match args.get(k) {
        Some(Arg::Cmp(cmp)) => *cmp,
        _ => Cmp::Eq,
    }
}

/// The text at a place; the empty one where there is none.
pub(crate) fn text_at(alloc: Global, args: &[Arg], k: usize) -> Result<Field, NoMemory>
    ensures { IfOk result (λ text. text ≡ text_at args.now k) }
{
    match args.get(k) {
        Some(Arg::Text(text)) => text.copy(),
        _ => Field::of_plain(alloc, b""),
    }
}

/// The text at a place, to be looked for.
pub(crate) fn needle_at(alloc: Global, args: &[Arg], k: usize) -> Result<Needle, NoMemory>
    ensures { IfOk result (λ needle. needle ≡ text_at args.now k) }
{
    Needle::new(alloc, &text_at(alloc, args, k)?)
}
