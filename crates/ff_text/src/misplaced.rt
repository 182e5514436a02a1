// The faults that tokens are.
ghost use Rattle.std.specs.Prelude.{◌≡◌};
ghost use Rattle.ff_text.specs.Seen.{token_of};
ghost use Rattle.ff_text.specs.Wants.{misplaced};

use crate::{PlacedToken, ReadFault, TextKind, TextMark, Token};
use ff_net::Version;

/// The fault of a token that doesn't stand in its place.
pub(crate) fn misplaced(version: Version, spot: PlacedToken) -> ReadFault
    ensures { result
        ≡ ReadFault.Text spot.entry.at (misplaced version (token_of spot.entry.token)) }
{
    let kind = match spot.token {
        Token::Bad => TextKind::BadByte,
        Token::Sign(TextMark::Semicolon) if version == Version::One => TextKind::BadByte,
        Token::Stop => TextKind::End,
        _ => TextKind::BadToken,
    };
    fault_at(spot.at, kind)
}

/// A fault of this kind at that place.
pub(crate) fn fault_at(at: usize, kind: TextKind) -> ReadFault
    ensures { result ≡ ReadFault.Text at kind }
{
    ReadFault::Text { at, kind }
}
