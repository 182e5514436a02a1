// One operation of a network's text.
ghost use Rattle.std.specs.Prelude.{◌≡◌, ◌∷◌, ◌++◌, map, IfOk};
ghost use Rattle.ff_ops.specs.Table.{name_of, kinds_of};
ghost use Rattle.ff_ops.specs.Arguments.{AllFit};
ghost use Rattle.ff_text.specs.OperationTokens.{argument_token, IsNew, spelling};
ghost use Rattle.ff_text.specs.Printing.{tokens_of};
ghost use Rattle.ff_text.specs.Reading.{IsEaten};
ghost use Rattle.ff_text.specs.Seen.{context_of};
ghost use Rattle.ff_text.specs.Tokens.{Word};
ghost use Rattle.ff_text.specs.Wants.{Argument};

use crate::argument::argument_of;
use crate::context::Context;
use crate::{ReadFault, Reader};
use ff_ops::{Arg, ArgKind, Op, Row};
use std::alloc::Global;

/// The operation of a row, from behind its name.
pub(crate) fn operation(
    alloc: Global,
    context: &Context,
    row: Row,
    reader: &mut Reader,
) -> Result<Op, ReadFault>
    ensures eaten { IsEaten (context_of context.now) (map (λ kind. Argument kind) (kinds_of row))
        result reader.old reader.new }
    ensures fits { IfOk result (λ o. IsNew o) }
    ensures text { IfOk result (λ o.
        Word (name_of row) ∷ tokens_of reader.old ≡ spelling o ++ tokens_of reader.new) }
{
    let args = arguments_of(alloc, context, row.kinds(), reader)?;
    Ok(Op::of_row(alloc, row, args)?)
}

// An argument of each kind.
fn arguments_of(
    alloc: Global,
    context: &Context,
    kinds: &[ArgKind],
    reader: &mut Reader,
) -> Result<Vec<Arg>, ReadFault>
    ensures eaten { IsEaten (context_of context.now) (map (λ kind. Argument kind) kinds.now)
        result reader.old reader.new }
    ensures fit { IfOk result (λ args. AllFit args.items kinds.now) }
    ensures text { IfOk result (λ args.
        tokens_of reader.old ≡ map argument_token args.items ++ tokens_of reader.new) }
{
    let mut args = Vec::new(alloc);
    for kind in kinds {
        args.push(argument_of(alloc, context, *kind, reader)?)?;
    }
    Ok(args)
}
