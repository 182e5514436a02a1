// The rows of the table of operations.
ghost use Rattle.std.specs.Prelude.{◌≡◌, None, MatchOption};
ghost use Rattle.ff_ops.specs.Table.{name_of, kinds_of, row_named, HasKinds};

use crate::ArgKind;

/// A row of the table, by its name.
#[derive(Clone, Copy, Debug, PartialEq, Eq)]
pub enum Row {
    Id,
    Add,
    Sub,
    Mul,
    Div,
    Rem,
    Neg,
    Set,
    Keep,
    Drop,
    Swap,
    Copy,
    Len,
    Upper,
    Lower,
    If,
    IfEq,
    Has,
    Words,
    Dup,
    Halve,
    Plus,
    Number,
    RunSum,
    Delta,
    Take,
    Skip,
    Uniq,
    Tally,
    Total,
    Min,
    Max,
    TallyBy,
    TotalBy,
}

/// All rows, in the order of the table.
pub const ROWS: [Row; 34] = [
    Row::Id,
    Row::Add,
    Row::Sub,
    Row::Mul,
    Row::Div,
    Row::Rem,
    Row::Neg,
    Row::Set,
    Row::Keep,
    Row::Drop,
    Row::Swap,
    Row::Copy,
    Row::Len,
    Row::Upper,
    Row::Lower,
    Row::If,
    Row::IfEq,
    Row::Has,
    Row::Words,
    Row::Dup,
    Row::Halve,
    Row::Plus,
    Row::Number,
    Row::RunSum,
    Row::Delta,
    Row::Take,
    Row::Skip,
    Row::Uniq,
    Row::Tally,
    Row::Total,
    Row::Min,
    Row::Max,
    Row::TallyBy,
    Row::TotalBy,
];

impl Row {
    /// The word that names it in a text.
    pub fn name(self) -> &'static [u8]
        ensures { result.now ≡ name_of self }
    {
        self.signature().0
    }

    /// What its arguments are, in their order.
    pub fn kinds(self) -> &'static [ArgKind]
        ensures { result.now ≡ kinds_of self }
    {
        self.signature().1
    }

    /// The row with this name.
    pub fn named(name: &[u8]) -> Option<Row>
        ensures { result ≡ row_named name.now }
    {
        ROWS.iter().copied().find(|row| row.name() == name)
    }
}

/// What the arguments of the operation with this name are.
pub fn shape(name: &[u8]) -> Option<&'static [ArgKind]>
    ensures { MatchOption result (row_named name.now ≡ None) (λ kinds. HasKinds name.now kinds.now) }
{
    Some(Row::named(name)?.kinds())
}
