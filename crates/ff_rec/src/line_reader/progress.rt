// The limits of a text, and how far it is read.
ghost use Rattle.std.specs.Prelude.{◌≡◌, []};

use std::alloc::Global;

/// So many bytes a line, its newline not counted, and so many in all.
#[derive(Clone, Copy, Debug)]
pub struct Limits {
    pub line: usize,
    pub input: u64,
}

/// The bytes taken and the lines ended so far, and the line that no newline has ended yet, with its tabs.
#[derive(Debug, Drop)]
pub struct Progress {
    pub taken: u64,
    pub ended: u64,
    pub tab_count: usize,
    pub line: Vec<u8>,
}

impl Progress {
    /// Nothing was read.
    pub fn new(alloc: Global) -> Progress
        ensures taken { result.taken ≡ 0 }
        ensures ended { result.ended ≡ 0 }
        ensures tab_count { result.tab_count ≡ 0 }
        ensures line { result.line.items ≡ [] }
    {
        Progress {
            taken: 0,
            ended: 0,
            tab_count: 0,
            line: Vec::new(alloc),
        }
    }
}
