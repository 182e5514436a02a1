// A part of the line that is made anew by itself.
ghost use Rattle.std.specs.Prelude.{◌≡◌, IfOk};
ghost use Rattle.ff_stencil.specs.Chunks.{fresh, fresh_changes};

use crate::StencilRule;
use ff_dc::Numbers;
use ff_rec::{Kept, NoMemory};
use std::alloc::Global;

/// Cells of a line, with one halo cell at each side.
#[derive(Debug, Drop)]
pub struct Chunk {
    pub rule: StencilRule,
    /// The place of its first cell in the line, from 0; the halo cell isn't counted.
    pub first: usize,
    /// The cells between the two halo cells.
    pub cells: Numbers,
}

/// The cells of a chunk, made anew.
#[derive(Debug, Drop)]
pub struct Fresh {
    /// The place of the first one in the line.
    pub first: usize,
    pub cells: Numbers,
    /// How many of them changed.
    pub changes: usize,
}

impl Chunk {
    /// The cells of the chunk made anew, and how many changed.
    pub fn renew(&self, alloc: Global) -> Result<Fresh, NoMemory>
        ensures first { IfOk result (λ f. f.first ≡ self.now.first) }
        ensures cells { IfOk result (λ f. f.cells ≡ fresh self.now.rule self.now.cells) }
        ensures changes { IfOk result (λ f. f.changes ≡ fresh_changes self.now.rule self.now.cells) }
    {
        let seen = self.cells.as_slice();
        let mut cells = Numbers::new(alloc);
        let mut changes = 0;
        for k in 0..seen.len().saturating_sub(2) {
            changes += usize::from(
                self.rule
                    .add_new_cell(seen[k], seen[k + 1], seen[k + 2], &mut cells)?,
            );
        }
        Ok(Fresh {
            first: self.first,
            cells,
            changes,
        })
    }
}

impl Kept for Chunk {
    fn copy(&self) -> Result<Chunk, NoMemory> {
        Ok(Chunk {
            rule: self.rule,
            first: self.first,
            cells: self.cells.copy()?,
        })
    }
}

impl Kept for Fresh {
    fn copy(&self) -> Result<Fresh, NoMemory> {
        Ok(Fresh {
            first: self.first,
            cells: self.cells.copy()?,
            changes: self.changes,
        })
    }
}
