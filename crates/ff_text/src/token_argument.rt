// The arguments that tokens are.
ghost use Rattle.std.specs.Prelude.{◌≡◌, IfOk};
ghost use Rattle.ff_text.specs.OperationTokens.{comparison, argument};
ghost use Rattle.ff_text.specs.Seen.{token_of};
ghost use Rattle.ff_text.specs.Tokens.{HasPlainText};

use crate::{TextMark, Token};
use ff_node::Cmp;
use ff_ops::Arg;
use ff_rec::{Field, NoMemory};
use std::alloc::Global;

/// The argument that a token is.
pub(crate) fn argument(alloc: Global, token: Token) -> Result<Option<Arg>, NoMemory>
    requires { HasPlainText (token_of token) }
    ensures { IfOk result (λ arg. arg ≡ argument (token_of token.entry)) }
{
    Ok(match token {
        Token::Number(Some(n)) => Some(Arg::Num(n)),
        Token::Sign(mark) => comparison(mark).map(|cmp| Arg::Cmp(cmp)),
        Token::Quoted(bytes) => Some(Arg::Text(Field::of_plain(alloc, bytes)?)),
        _ => None,
    })
}

// The comparison that a mark is.
fn comparison(mark: TextMark) -> Option<Cmp>
    ensures { result ≡ comparison mark }
{
    match mark {
        TextMark::Less => Some(Cmp::Lt),
        TextMark::AtMost => Some(Cmp::Le),
        TextMark::Equal => Some(Cmp::Eq),
        TextMark::Unequal => Some(Cmp::Ne),
        TextMark::AtLeast => Some(Cmp::Ge),
        TextMark::Greater => Some(Cmp::Gt),
        _ => None,
    }
}
