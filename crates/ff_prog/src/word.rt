// The words of a statement, taken one by one.
ghost use Rattle.std.specs.Prelude.{◌≡◌, ◌<◌, ◌≤◌, length, IfSome, true};
ghost use Rattle.ff_prog.specs.Words.{words, is_name, is_statement, uncommented};
ghost use Rattle.ff_prog.specs.Seen.{words_of, IsWordFirst};

use crate::byte_class::{ByteClass, run_len};

/// The first word, and what stands behind it.
pub(crate) fn first_word(bytes: &[u8]) -> Option<(&[u8], &[u8])>
    ensures words { words bytes.now ≡ words_of result }
    ensures shorter { IfSome result (λ p. length p.1.now < length bytes.now) }
{
    let from = run_len(ByteClass::Space, bytes);
    word_at_front(&bytes[from..])
}

// The first word of bytes that don't begin with a space.
fn word_at_front(bytes: &[u8]) -> Option<(&[u8], &[u8])>
    requires { IsWordFirst bytes.now }
    ensures words { words bytes.now ≡ words_of result }
    ensures shorter { IfSome result (λ p. length p.1.now < length bytes.now) }
{
    if bytes.is_empty() {
        return None;
    }
    if bytes[0] == b'=' {
        return Some((&bytes[..1], &bytes[1..]));
    }
    let len = run_len(ByteClass::InWord, bytes);
    Some((&bytes[..len], &bytes[len..]))
}

/// The bytes of a line in front of its comment.
pub(crate) fn without_comment(line: &[u8]) -> &[u8]
    ensures { result.now ≡ uncommented line.now }
{
    let len = run_len(ByteClass::Told, line);
    &line[..len]
}

/// Whether a piece says something: not all its bytes are spaces, tabs and carriage returns.
pub(crate) fn is_statement(piece: &[u8]) -> bool
    ensures { result ≡ is_statement piece.now }
{
    let blank = run_len(ByteClass::Blank, piece) == piece.len();
    !blank
}

/// Whether a word is a name.
pub(crate) fn is_name_word(word: &[u8]) -> bool
    ensures value { result ≡ is_name word.now }
    ensures within { result ≡ true → length word.now ≤ 32 }
{
    let [first, rest @ ..] = word else {
        return false;
    };
    first.is_ascii_lowercase()
        && run_len(ByteClass::InName, rest) == rest.len()
        && rest.len() <= 31
        && word != b"out".as_slice()
}
