// A text, taken token by token.
ghost use Rattle.std.specs.Prelude.{◌≡◌, ◌≤◌, ◌∷◌, length, drop};
ghost use Rattle.ff_text.specs.Cutting.{ahead, tokens};
ghost use Rattle.ff_text.specs.Seen.{spot_of, token_of, behind};
ghost use Rattle.ff_text.specs.Tokens.{Stop, HasPlainText};

use crate::lexeme::first_lexeme;
use crate::{PlacedToken, Token};
use std::marker::Model;

/// A text and how far it is read. Where all is read, `Stop` is ahead, at the length of the text.
#[derive(Drop)]
pub struct Reader<'a> {
    text: &'a [u8],
    at: usize,
}

impl<'a> Model for Reader<'a> {
    ghost use Rattle.std.specs.Prelude.{List, ◌≤◌, length};
    ghost use Rattle.ff_text.specs.Tokens.{PlacedToken};
    ghost use Rattle.ff_text.specs.Cutting.{ahead};

    ghost Value = { List PlacedToken };

    ghost view = { λ r. ahead r.text.now r.at };

    ghost invariant = { λ r. r.at ≤ length r.text.now };
}

impl<'a> Reader<'a> {
    /// A text that is still unread.
    pub fn new(text: &'a [u8]) -> Reader<'a>
        ensures { result ≡ tokens text.now }
    {
        Reader { text, at: 0 }
    }

    /// The first token ahead. It stays ahead.
    pub fn peek(&self) -> PlacedToken<'a>
        ensures first { self.now ≡ spot_of result ∷ drop 1 self.now }
        ensures plain { HasPlainText (token_of result.token) }
    {
        next_spot(self.text, self.at).0
    }

    /// Takes the first token ahead, unless it is `Stop`, which stays.
    pub fn next(&mut self) -> PlacedToken<'a>
        ensures first { self.old ≡ spot_of result ∷ behind (token_of result.token) self.new }
        ensures stays { token_of result.token ≡ Stop → self.new ≡ self.old }
        ensures plain { HasPlainText (token_of result.token) }
    {
        let (spot, at) = next_spot(self.text, self.at);
        self.at = at;
        spot
    }
}

// The first token from the place `at` on, and the place behind it.
fn next_spot(text: &[u8], mut at: usize) -> (PlacedToken<'_>, usize)
    requires { at ≤ length text.now }
    ensures first { ahead text.now at
        ≡ spot_of result.0 ∷ behind (token_of result.0.token) (ahead text.now result.1) }
    ensures stays { token_of result.0.token ≡ Stop → ahead text.now result.1 ≡ ahead text.now at }
    ensures within { result.1 ≤ length text.now }
    ensures plain { HasPlainText (token_of result.0.token) }
{
    while at < text.len() {
        let lexeme = first_lexeme(&text[at..]);
        let start = at;
        at += 1 + lexeme.more;
        if let Some(token) = lexeme.token {
            return (PlacedToken { token, at: start }, at);
        }
    }
    let token = Token::Stop;
    (PlacedToken { token, at }, at)
}
