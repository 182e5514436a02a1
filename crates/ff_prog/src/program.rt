// Lists of names and of statements.
ghost use Rattle.std.specs.Prelude.{◌≡◌, ◌≤◌, length};

use crate::{Name, Statement};
use std::marker::Model;

/// A list of names.
#[derive(Debug, Drop)]
pub struct Names {
    names: Vec<Name>,
}

impl Model for Names {
    ghost use Rattle.std.specs.Prelude.{List, ℕ};

    ghost Value = { List (List ℕ) };

    ghost view = { λ n. n.names.items };
}

impl Names {
    /// These names.
    pub(crate) fn of(names: Vec<Name>) -> Names
        ensures { result ≡ names.items }
    {
        Names { names }
    }

    /// The names in their order.
    pub fn as_slice(&self) -> &[Name]
        ensures { result.now ≡ self.now }
    {
        self.names.as_slice()
    }
}

/// A list of statements.
#[derive(Debug, Drop)]
pub struct Program {
    statements: Vec<Statement>,
}

impl Model for Program {
    ghost use Rattle.std.specs.Prelude.{List, ◌≤◌, length};
    ghost use Rattle.ff_prog.specs.declared.statement.Statement.{Statement};

    ghost Value = { List Statement };

    ghost view = { λ p. p.statements.items };

    ghost invariant = { λ p. length p.statements.items ≤ 65537 };
}

impl Program {
    /// These statements.
    pub(crate) fn of(statements: Vec<Statement>) -> Program
        requires { length statements.items ≤ 65537 }
        ensures { result ≡ statements.items }
    {
        Program { statements }
    }

    /// The statements in their order.
    pub fn as_slice(&self) -> &[Statement]
        ensures value { result.now ≡ self.now }
        ensures few { length result.now ≤ 65537 }
    {
        self.statements.as_slice()
    }
}
