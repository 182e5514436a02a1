// Arguments and numbers.
ghost use Rattle.std.specs.Prelude.{◌≡◌, [], ◌∷◌, IfOk, IsTrue, pos, Some};
ghost use Rattle.ff_ops.specs.Arguments.{is_numeric, fits};
ghost use Rattle.ff_ops.specs.declared.arg.Arg.TheVariants.{Num, Cmp as Compared};
ghost use Rattle.ff_text.specs.Grammar.{a_count, IsCount, count_token};
ghost use Rattle.ff_text.specs.OperationTokens.{argument_token, mark_of};
ghost use Rattle.ff_text.specs.Printing.{tokens_of};
ghost use Rattle.ff_text.specs.Reading.{IsEaten};
ghost use Rattle.ff_text.specs.Seen.{context_of, token_of};
ghost use Rattle.ff_text.specs.Tokens.{Sign, Number};
ghost use Rattle.ff_text.specs.Wants.{Argument, is_beyond};

use crate::context::Context;
use crate::misplaced::{fault_at, misplaced};
use crate::token_argument::argument;
use crate::{ReadFault, Reader, TextKind, Token};
use ff_node::Cmp;
use ff_ops::{Arg, ArgKind};
use std::alloc::Global;

/// An argument of a kind, within its range.
pub(crate) fn argument_of(
    alloc: Global,
    context: &Context,
    kind: ArgKind,
    reader: &mut Reader,
) -> Result<Arg, ReadFault>
    ensures eaten { IsEaten (context_of context.now) (Argument kind ∷ [])
        result reader.old reader.new }
    ensures fits { IfOk result (λ arg. IsTrue (fits arg kind)) }
    ensures text { IfOk result (λ arg.
        tokens_of reader.old ≡ argument_token arg ∷ tokens_of reader.new) }
{
    let spot = reader.next();
    match argument(alloc, spot.token)? {
        Some(arg) => {
            if !arg.suits(kind) {
                return Err(misplaced(context.version, spot));
            }
            if !arg.is_within(kind) {
                return Err(fault_at(spot.at, TextKind::Range));
            }
            Ok(arg)
        }
        None => {
            if is_beyond(spot.token) && is_numeric(kind) {
                return Err(fault_at(spot.at, TextKind::Range));
            }
            Err(misplaced(context.version, spot))
        }
    }
}

// A number beyond 64 bits.
fn is_beyond(token: Token) -> bool
    ensures { result ≡ is_beyond (token_of token.entry) }
{
    matches!(token, Token::Number(None))
}

// Whether numbers are of the kind.
fn is_numeric(kind: ArgKind) -> bool
    ensures { result ≡ is_numeric kind }
{
    !matches!(kind, ArgKind::Cmp | ArgKind::Text)
}

/// A count of 32 bits.
pub(crate) fn count(alloc: Global, context: &Context, reader: &mut Reader) -> Result<u32, ReadFault>
    ensures eaten { IsEaten (context_of context.now) (Argument a_count ∷ [])
        result reader.old reader.new }
    ensures count { IfOk result (λ n. IsCount n) }
    ensures text { IfOk result (λ n. tokens_of reader.old ≡ count_token n ∷ tokens_of reader.new) }
{
    let kind = ArgKind::Count {
        low: 0,
        high: u32::MAX,
    };
    Ok(as_count(&argument_of(alloc, context, kind, reader)?))
}

// The count that an argument is; 0 for any other.
fn as_count(arg: &Arg) -> u32
    ensures { IsTrue (fits arg.now a_count) → arg.now ≡ Num (pos result) }
{
    match arg {
        Arg::Num(n) => u32::try_from(*n).unwrap_or(0),
        _ => 0,
    }
}

/// The mark of a comparison.
pub(crate) fn comparison_mark(
    alloc: Global,
    context: &Context,
    reader: &mut Reader,
) -> Result<Cmp, ReadFault>
    ensures eaten { IsEaten (context_of context.now) (Argument ArgKind.Cmp ∷ [])
        result reader.old reader.new }
    ensures text { IfOk result (λ cmp.
        tokens_of reader.old ≡ Sign (mark_of cmp) ∷ tokens_of reader.new) }
{
    Ok(as_cmp(&argument_of(alloc, context, ArgKind::Cmp, reader)?))
}

// The comparison that an argument is; equality for any other.
fn as_cmp(arg: &Arg) -> Cmp
    ensures { IsTrue (fits arg.now ArgKind.Cmp) → arg.now ≡ Compared result }
{
    match arg {
        Arg::Cmp(cmp) => *cmp,
        _ => Cmp::Eq,
    }
}

/// Any number of 64 bits.
pub(crate) fn any_number(
    alloc: Global,
    context: &Context,
    reader: &mut Reader,
) -> Result<i64, ReadFault>
    ensures eaten { IsEaten (context_of context.now) (Argument ArgKind.Num ∷ [])
        result reader.old reader.new }
    ensures text { IfOk result (λ n.
        tokens_of reader.old ≡ Number (Some n) ∷ tokens_of reader.new) }
{
    Ok(as_number(&argument_of(alloc, context, ArgKind::Num, reader)?))
}

// The number that an argument is; 0 for any other.
fn as_number(arg: &Arg) -> i64
    ensures { IsTrue (fits arg.now ArgKind.Num) → arg.now ≡ Num result }
{
    match arg {
        Arg::Num(n) => *n,
        _ => 0,
    }
}
