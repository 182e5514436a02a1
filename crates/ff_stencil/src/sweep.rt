// Turns over the whole line, on one thread.
ghost use Rattle.std.specs.Prelude.{◌≡◌, IfOk};
ghost use Rattle.ff_stencil.specs.Cells.{sweep};

use crate::StencilRule;
use crate::turn::turn;
use ff_dc::Numbers;
use ff_rec::{Kept, NoMemory};
use std::alloc::Global;
use std::mem::swap;

/// The line behind its last turn.
#[derive(Debug, Drop)]
pub struct Swept {
    pub numbers: Numbers,
    /// How many turns were made.
    pub turns: u32,
}

/// Makes turns until so many were made or one changed no cell; that last one counts.
pub fn plain_sweep(
    alloc: Global,
    rule: StencilRule,
    numbers: &Numbers,
    turns: u32,
) -> Result<Swept, NoMemory>
    ensures cells { IfOk result (λ s. s.numbers ≡ (sweep rule numbers.now turns).0) }
    ensures turns { IfOk result (λ s. s.turns ≡ (sweep rule numbers.now turns).1) }
{
    let mut cells = numbers.copy()?;
    let mut next = Numbers::new(alloc);
    for made in 0..turns {
        let changed = turn(rule, cells.as_slice(), &mut next)?;
        swap(&mut cells, &mut next);
        if changed == 0 {
            return Ok(Swept {
                numbers: cells,
                turns: made + 1,
            });
        }
    }
    Ok(Swept {
        numbers: cells,
        turns,
    })
}
