// The marks of a text.

/// `(`, `)`, `,`, `<`, `<=`, `=`, `!=`, `>=`, `>` and `;`.
#[derive(Debug, Clone, Copy, PartialEq, Eq)]
pub enum TextMark {
    Open,
    Close,
    Comma,
    Less,
    AtMost,
    Equal,
    Unequal,
    AtLeast,
    Greater,
    Semicolon,
}
