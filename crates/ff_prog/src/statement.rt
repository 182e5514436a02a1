// The statements of programs.
ghost use Rattle.std.specs.Prelude.{◌≡◌, MatchOption, Some, None, slice_get};
ghost use Rattle.ff_prog.specs.Writers.{is_second};

use crate::{MdfOp, Name, Names};

/// What an operation is done on.
#[derive(Debug, Drop)]
pub enum Operand {
    Name(Name),
    Num(i64),
}

/// A task, or the names that are put out.
#[derive(Debug, Drop)]
pub enum Statement {
    Task {
        first: Name,
        second: Option<Name>,
        op: MdfOp,
        a: Operand,
        b: Option<Operand>,
        c: Option<Operand>,
    },
    Out(Names),
}

/// Statement `k`, counted from 0.
pub(crate) fn statement_at(statements: &[Statement], k: usize) -> Option<&Statement>
    ensures { MatchOption result (slice_get statements.now k ≡ None)
        (λ s. slice_get statements.now k ≡ Some s.now) }
{
    statements.get(k)
}

/// Whether a name that may not be there is this one.
pub(crate) fn is_second(second: &Option<Name>, name: &Name) -> bool
    ensures { result ≡ is_second second.now name.now }
{
    match second {
        Some(second) => second.bytes() == name.bytes(),
        None => false,
    }
}
