// The rules.

/// What is asked of some numbers, or of one number.
#[derive(Clone, Copy, Debug, PartialEq, Eq)]
pub enum DcRule {
    /// The number of Fibonacci at the size of a part.
    Fib,
    /// The sum of the numbers.
    Sum,
    /// The greatest sum of neighbours; the sum of none is 0.
    MaxSub,
    /// The least number, and the first place where it stands.
    FirstMin,
    /// The closing brackets (41) without their opening one, and the opening ones (40) without their
    /// closing one.
    Bracket,
}
