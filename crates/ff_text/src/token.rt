// A token, and a token at its place.
use crate::TextMark;

/// What a text is cut into.
#[derive(Debug, Clone, Copy, PartialEq, Eq)]
pub enum Token<'a> {
    /// A small letter, then small letters and digits.
    Word(&'a [u8]),
    /// Without a value where it is outside 64 bits with a sign.
    Number(Option<i64>),
    Sign(TextMark),
    /// What stands between the quotes.
    Quoted(&'a [u8]),
    /// A byte at which no token begins.
    Bad,
    /// The end of the text.
    Stop,
}

/// A token and the place of its first byte, from 0.
#[derive(Debug, Clone, Copy, PartialEq, Eq)]
pub struct PlacedToken<'a> {
    pub token: Token<'a>,
    pub at: usize,
}
