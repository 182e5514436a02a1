// The test of a wrap.
ghost use Rattle.std.specs.Prelude.{◌≡◌, [], ◌∷◌, IfOk, OnOk, codes, Some};
ghost use Rattle.ff_ops.specs.declared.arg.ArgKind.TheVariants.{Num as AnyNumber, Cmp as AnyComparison};
ghost use Rattle.ff_text.specs.Grammar.{a_count, IsCount, count_token};
ghost use Rattle.ff_text.specs.OperationTokens.{mark_of};
ghost use Rattle.ff_text.specs.Printing.{tokens_of};
ghost use Rattle.ff_text.specs.Reading.{IsEaten};
ghost use Rattle.ff_text.specs.Seen.{context_of};
ghost use Rattle.ff_text.specs.Tokens.{Sign, Word, Number};
ghost use Rattle.ff_text.specs.Wants.{Argument, Condition};

use crate::argument::{any_number, comparison_mark, count};
use crate::context::Context;
use crate::misplaced::misplaced;
use crate::{ReadFault, Reader, Token};
use ff_net::Test;
use std::alloc::Global;

// The word `if`.
fn condition(context: &Context, reader: &mut Reader) -> Result<(), ReadFault>
    ensures eaten { IsEaten (context_of context.now) (Condition ∷ []) result reader.old reader.new }
    ensures text { OnOk result (tokens_of reader.old ≡ Word (codes "if") ∷ tokens_of reader.new) }
{
    let spot = reader.next();
    let Token::Word(name) = spot.token else {
        return Err(misplaced(context.version, spot));
    };
    if name == b"if".as_slice() {
        Ok(())
    } else {
        Err(misplaced(context.version, spot))
    }
}

/// The test of a wrap.
pub(crate) fn tested(
    alloc: Global,
    context: &Context,
    reader: &mut Reader,
) -> Result<Test, ReadFault>
    ensures eaten { IsEaten (context_of context.now)
        (Condition ∷ Argument a_count ∷ Argument AnyComparison ∷ Argument AnyNumber ∷ [])
        result reader.old reader.new }
    ensures field { IfOk result (λ test. IsCount test.field) }
    ensures text { IfOk result (λ test.
        tokens_of reader.old
        ≡ Word (codes "if") ∷ count_token test.field ∷ Sign (mark_of test.cmp)
        ∷ Number (Some test.value) ∷ tokens_of reader.new) }
{
    condition(context, reader)?;
    Ok(Test {
        field: count(alloc, context, reader)?,
        cmp: comparison_mark(alloc, context, reader)?,
        value: any_number(alloc, context, reader)?,
    })
}
