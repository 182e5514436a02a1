// The marks round networks and between them.
ghost use Rattle.std.specs.Prelude.{◌≡◌, ℕ, [], ◌∷◌, IfOk, OnOk, if◌then◌else◌};
ghost use Rattle.ff_text.specs.declared.text_mark.TextMark.TheVariants.{Open, Close, Comma};
ghost use Rattle.ff_text.specs.Printing.{tokens_of};
ghost use Rattle.ff_text.specs.Reading.{IsEaten, IsAnother};
ghost use Rattle.ff_text.specs.Seen.{context_of};
ghost use Rattle.ff_text.specs.Tokens.{Sign};
ghost use Rattle.ff_text.specs.Wants.{Opening, Closing};

use crate::context::Context;
use crate::misplaced::misplaced;
use crate::{ReadFault, Reader, TextMark, Token};

/// The mark `(`.
pub(crate) fn opening(context: &Context, reader: &mut Reader) -> Result<(), ReadFault>
    ensures eaten { IsEaten (context_of context.now) (Opening ∷ []) result reader.old reader.new }
    ensures text { OnOk result (tokens_of reader.old ≡ Sign Open ∷ tokens_of reader.new) }
{
    let spot = reader.next();
    match spot.token {
        Token::Sign(TextMark::Open) => Ok(()),
        _ => Err(misplaced(context.version, spot)),
    }
}

/// The mark `)`.
pub(crate) fn closing(context: &Context, reader: &mut Reader) -> Result<(), ReadFault>
    ensures eaten { IsEaten (context_of context.now) (Closing ∷ []) result reader.old reader.new }
    ensures text { OnOk result (tokens_of reader.old ≡ Sign Close ∷ tokens_of reader.new) }
{
    let spot = reader.next();
    match spot.token {
        Token::Sign(TextMark::Close) => Ok(()),
        _ => Err(misplaced(context.version, spot)),
    }
}

/// Whether another part follows, behind a `,`; otherwise `)` is taken.
pub(crate) fn another(context: &Context, reader: &mut Reader) -> Result<bool, ReadFault>
    ensures eaten { (room : ℕ)
        → IsAnother (context_of context.now) room result reader.old reader.new }
    ensures text { IfOk result (λ more.
        tokens_of reader.old ≡ Sign (if more then Comma else Close) ∷ tokens_of reader.new) }
{
    let spot = reader.next();
    match spot.token {
        Token::Sign(TextMark::Comma) => Ok(true),
        Token::Sign(TextMark::Close) => Ok(false),
        _ => Err(misplaced(context.version, spot)),
    }
}
