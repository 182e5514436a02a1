// The words of the forms of networks.
ghost use Rattle.std.specs.Prelude.{◌≡◌};
ghost use Rattle.ff_text.specs.Grammar.{form_word, form_named};

/// A form of networks, by its word.
#[derive(Clone, Copy)]
pub(crate) enum Form {
    Pipe,
    Comb,
    Farm,
    OFarm,
    A2a,
    Wrap,
}

/// All forms.
pub(crate) const FORMS: [Form; 6] = [
    Form::Pipe,
    Form::Comb,
    Form::Farm,
    Form::OFarm,
    Form::A2a,
    Form::Wrap,
];

impl Form {
    // The word in a text.
    fn word(self) -> &'static [u8]
        ensures { result.now ≡ form_word self }
    {
        match self {
            Form::Pipe => b"pipe",
            Form::Comb => b"comb",
            Form::Farm => b"farm",
            Form::OFarm => b"ofarm",
            Form::A2a => b"a2a",
            Form::Wrap => b"wrap",
        }
    }

    /// The form with this word.
    pub(crate) fn named(name: &[u8]) -> Option<Form>
        ensures { result ≡ form_named name.now }
    {
        FORMS.iter().copied().find(|form| form.word() == name)
    }
}
