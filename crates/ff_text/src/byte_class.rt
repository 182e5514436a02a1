// Runs of bytes of one class.
ghost use Rattle.std.specs.Prelude.{◌≡◌, ◌≤◌, length};
ghost use Rattle.std.specs.List.{prefix_len};
ghost use Rattle.ff_text.specs.Classes.{is_of};

/// The bytes of which the longer pieces of a text are made.
#[derive(Clone, Copy)]
pub enum ByteClass {
    InWord,
    Digit,
    InQuotes,
    InLine,
}

impl ByteClass {
    // Whether a byte is of the class.
    fn holds(self, byte: u8) -> bool
        ensures { result ≡ is_of self byte }
    {
        match self {
            ByteClass::InWord => byte.is_ascii_lowercase() || byte.is_ascii_digit(),
            ByteClass::Digit => byte.is_ascii_digit(),
            ByteClass::InQuotes => byte != b'"' && byte != b'\t' && byte != b'\n',
            ByteClass::InLine => byte != b'\n',
        }
    }
}

/// How many bytes at the front are of the class.
pub fn run_len(class: ByteClass, bytes: &[u8]) -> usize
    ensures value { result ≡ prefix_len (is_of class) bytes.now }
    ensures within { result ≤ length bytes.now }
{
    for (i, byte) in bytes.iter().enumerate() {
        if !class.holds(*byte) {
            return i;
        }
    }
    bytes.len()
}
