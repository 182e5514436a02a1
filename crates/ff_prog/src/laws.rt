// What holds of the words of this crate's contracts, whatever the call.
ghost use Rattle.ff_prog.specs.Spelling.{StatementsAreSpelled};

/// Words are read as just the one statement that they spell, by the table of the language.
pub fn statements_are_spelled()
    ensures { StatementsAreSpelled }
{}
