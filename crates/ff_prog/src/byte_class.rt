// Runs of bytes of one class.
ghost use Rattle.std.specs.Prelude.{◌≡◌, ◌≤◌, length};
ghost use Rattle.std.specs.List.{prefix_len};
ghost use Rattle.ff_prog.specs.Classes.{is_of};

/// The bytes that stand together in a text.
#[derive(Clone, Copy)]
pub(crate) enum ByteClass {
    Space,
    InWord,
    Told,
    Blank,
    InName,
}

impl ByteClass {
    // Whether a byte is of the class.
    fn holds(self, byte: u8) -> bool
        ensures { result ≡ is_of self byte }
    {
        match self {
            ByteClass::Space => byte == b' ' || byte == b'\t',
            ByteClass::InWord => !(byte == b' ' || byte == b'\t' || byte == b'='),
            ByteClass::Told => byte != b'#',
            ByteClass::Blank => byte == b' ' || byte == b'\t' || byte == b'\r',
            ByteClass::InName => {
                byte.is_ascii_lowercase() || byte.is_ascii_digit() || byte == b'_'
            }
        }
    }
}

/// How many bytes at the front are of the class.
pub(crate) fn run_len(class: ByteClass, bytes: &[u8]) -> usize
    ensures value { result ≡ prefix_len (is_of class) bytes.now }
    ensures within { result ≤ length bytes.now }
{
    for (i, byte) in bytes.iter().enumerate() {
        if !class.holds(*byte) {
            return i;
        }
    }
    bytes.len()
}
