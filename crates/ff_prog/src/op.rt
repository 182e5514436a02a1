// The operations of programs.
ghost use Rattle.std.specs.Prelude.{◌≡◌};
ghost use Rattle.ff_prog.specs.Grammar.{op_named};

/// What a task works out.
#[derive(Clone, Copy, Debug, PartialEq, Eq)]
pub enum MdfOp {
    Copy,
    Neg,
    Add,
    Sub,
    Mul,
    Div,
    Rem,
    Min,
    Max,
    Pick,
    DivMod,
}

impl MdfOp {
    /// The operation with this name.
    pub(crate) fn named(word: &[u8]) -> Option<MdfOp>
        ensures { result ≡ op_named word.now }
    {
        if word == b"copy".as_slice() {
            Some(MdfOp::Copy)
        } else if word == b"neg".as_slice() {
            Some(MdfOp::Neg)
        } else if word == b"add".as_slice() {
            Some(MdfOp::Add)
        } else if word == b"sub".as_slice() {
            Some(MdfOp::Sub)
        } else if word == b"mul".as_slice() {
            Some(MdfOp::Mul)
        } else if word == b"div".as_slice() {
            Some(MdfOp::Div)
        } else if word == b"rem".as_slice() {
            Some(MdfOp::Rem)
        } else if word == b"min".as_slice() {
            Some(MdfOp::Min)
        } else if word == b"max".as_slice() {
            Some(MdfOp::Max)
        } else if word == b"pick".as_slice() {
            Some(MdfOp::Pick)
        } else if word == b"divmod".as_slice() {
            Some(MdfOp::DivMod)
        } else {
            None
        }
    }
}
