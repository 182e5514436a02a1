// Capitals and small letters, of ASCII.
ghost use Rattle.std.specs.Prelude.{◌≡◌};
ghost use Rattle.ff_rec.specs.Cases.{in_case};

/// Which letters of ASCII there are to be: capitals or small ones.
#[derive(Clone, Copy, Debug, PartialEq, Eq)]
pub enum Case {
    Upper,
    Lower,
}

impl Case {
    /// Brings these bytes to it.
    pub(crate) fn put_on(self, bytes: &mut [u8])
        ensures { bytes.new ≡ in_case self bytes.old }
    {
        match self {
            Case::Upper => bytes.make_ascii_uppercase(),
            Case::Lower => bytes.make_ascii_lowercase(),
        }
    }
}
