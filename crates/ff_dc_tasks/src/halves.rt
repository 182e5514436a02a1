// Values that wait for those of the other half.
ghost use Rattle.std.specs.Prelude.{◌≡◌, ◌≤◌, ◌/◌, [], Some, ℕ, IfOk};
ghost use Rattle.ff_dc_tasks.specs.Pairs.{half_at, pair_from, Meets};
ghost use Rattle.ff_dc_tasks.specs.declared.halves.Half.{Half};

use crate::place::{Pair, Place};
use ff_dc::Four;
use ff_rec::NoMemory;
use std::alloc::Global;
use std::collections::HashMap;
use std::marker::Model;

/// One of the two parts of a part: its number, and its values.
#[derive(Clone, Copy, Debug, Drop)]
pub(crate) struct Half {
    pub number: u32,
    pub values: Four,
}

/// For some parts the one of its two parts that is done, by the path to the part.
#[derive(Drop)]
pub(crate) struct Halves {
    by_path: HashMap<u32, Half>,
}

impl Model for Halves {
    ghost use Rattle.std.specs.Prelude.{List, ℕ};
    ghost use Rattle.ff_dc_tasks.specs.declared.halves.Half.{Half};

    ghost Value = { List (ℕ × Half) };

    ghost view = { λ h. h.by_path.entries };
}

impl Halves {
    /// None.
    pub(crate) fn new(alloc: Global) -> Halves
        ensures { result ≡ [] }
    {
        Halves {
            by_path: HashMap::new(alloc),
        }
    }

    /// The part whose two parts are done with this one. Where the other one isn't done, this one is
    /// kept.
    pub(crate) fn meet(&mut self, place: Place, values: Four) -> Result<Option<Pair>, NoMemory>
        requires number { 1 ≤ place.number }
        requires other { (h : Half) → half_at (place.path / 2) self.old ≡ Some h
            → 1 ≤ h.number }
        ensures { IfOk result (λ x. Meets self.old place values x self.new) }
    {
        let parent = place.path / 2;
        let half = Half {
            number: place.number,
            values,
        };
        let Some(other) = self.by_path.remove(&parent) else {
            self.by_path.insert(parent, half)?;
            return Ok(None);
        };
        if place.path % 2 == 0 {
            Ok(Some(pair(parent, half, other)))
        } else {
            Ok(Some(pair(parent, other, half)))
        }
    }
}

// A left part has the number behind that of the part that it is of.
fn pair(path: u32, left: Half, right: Half) -> Pair
    requires { 1 ≤ left.number }
    ensures { result ≡ pair_from path left right }
{
    Pair {
        place: Place {
            path,
            number: left.number - 1,
        },
        left: left.values,
        right: right.values,
    }
}
