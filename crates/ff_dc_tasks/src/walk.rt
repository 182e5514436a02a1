// A division, gone through part by part.
ghost use Rattle.std.specs.Prelude.{◌≡◌, ◌↔◌, [], ◌∷◌, IsTrue, IfOk};
ghost use Rattle.ff_dc_tasks.specs.Walks.{IsWalk, Goes};

use crate::RuleFunctions;
use crate::place::Place;
use crate::todo::{Later, Todo};
use ff_dc::Part;
use ff_rec::NoMemory;
use std::alloc::Global;

/// Goes through the parts of a division in their order, and divides as it goes. It holds the parts
/// that are to be divided later: one for each level at most.
#[derive(Drop)]
pub(crate) struct Walk {
    cut: u32,
    whole: Part,
    todo: Todo,
    // The number of the first part that is to come.
    number: u32,
}

impl Walk {
    /// Nothing was gone through yet.
    pub(crate) fn new(alloc: Global, whole: Part, cut: u32) -> Result<Walk, NoMemory>
        ensures { IfOk result (λ w. w ≡ record {
          cut = cut;
          whole = whole;
          todo = record { path = 1; part = whole } ∷ [];
          number = 0;
        }) }
    {
        let todo = Todo::of(
            alloc,
            Later {
                path: 1,
                part: whole,
            },
        )?;
        Ok(Walk {
            cut,
            whole,
            todo,
            number: 0,
        })
    }

    /// The next part that isn't divided, by a rule that stays the same. It takes no memory.
    pub(crate) fn next_small<F: RuleFunctions>(&mut self, functions: &F) -> Option<(Place, Part)>
        requires { IsWalk (F.rule functions.now) self.old }
        ensures { Goes (F.rule functions.now) self.old result self.new }
    {
        let mut here = self.todo.take_first()?;
        while !functions.is_small(here.part, self.cut) {
            let (left, right) = functions.divide(here.part);
            self.todo.put(Later {
                path: 2 * here.path + 1,
                part: right,
            });
            here = Later {
                path: 2 * here.path,
                part: left,
            };
            self.number += 1;
        }
        let place = Place {
            path: here.path,
            number: self.number,
        };
        self.number += 1;
        Some((place, here.part))
    }

    /// Whether no part is to come.
    pub(crate) fn is_over(&self) -> bool
        ensures { IsTrue result ↔ (self.now.todo ≡ []) }
    {
        self.todo.is_empty()
    }
}
