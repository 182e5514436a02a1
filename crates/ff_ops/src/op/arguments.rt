// The arguments of an operation, one after another.
ghost use Rattle.std.specs.Prelude.{◌≡◌, ◌++◌, IfOk, OnOk};
ghost use Rattle.ff_ops.specs.Operation.{first_unsuited, first_outside, printed_arguments};

use crate::{Arg, ArgKind};
use ff_rec::{Kept, NoMemory};
use std::alloc::{AllocError, Global};

/// Appends each argument behind a space.
pub(super) fn print_arguments(args: &[Arg], into: &mut Vec<u8>) -> Result<(), NoMemory>
    ensures { OnOk result (into.new.items ≡ into.old.items ++ printed_arguments args.now) }
{
    for arg in args {
        into.push(b' ')?;
        arg.print(into)?;
    }
    Ok(())
}

/// The place of the first argument that isn't of its kind.
pub(super) fn first_unsuited(args: &[Arg], kinds: &[ArgKind]) -> Option<usize>
    ensures { result ≡ first_unsuited args.now kinds.now }
{
    args.iter()
        .zip(kinds)
        .position(|(arg, kind)| !arg.suits(*kind))
}

/// The place of the first argument that is outside the range of its kind.
pub(super) fn first_outside(args: &[Arg], kinds: &[ArgKind]) -> Option<usize>
    ensures { result ≡ first_outside args.now kinds.now }
{
    args.iter()
        .zip(kinds)
        .position(|(arg, kind)| !arg.is_within(*kind))
}

/// Each argument once more.
pub(super) fn copies(alloc: Global, args: &[Arg]) -> Result<Vec<Arg>, NoMemory>
    ensures { IfOk result (λ copies. copies.items ≡ args.now) }
{
    let mut copies = Vec::with_capacity(alloc, args.len())?;
    for arg in args {
        copies.push(arg.copy()?)?;
    }
    Ok(copies)
}
