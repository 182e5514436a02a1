// How two numbers stand to each other.
ghost use Rattle.std.specs.Prelude.{◌≡◌};
ghost use Rattle.ff_rec.specs.Cmp.{compares};

/// A comparison of two numbers.
#[derive(Clone, Copy, Debug, PartialEq, Eq)]
pub enum Cmp {
    Lt,
    Le,
    Eq,
    Ne,
    Ge,
    Gt,
}

impl Cmp {
    /// Whether it holds of `x` and `y`.
    pub fn holds(self, x: i64, y: i64) -> bool
        ensures { result ≡ compares self x y }
    {
        match self {
            Cmp::Lt => x < y,
            Cmp::Le => x <= y,
            Cmp::Eq => x == y,
            Cmp::Ne => x != y,
            Cmp::Ge => x >= y,
            Cmp::Gt => x > y,
        }
    }
}
