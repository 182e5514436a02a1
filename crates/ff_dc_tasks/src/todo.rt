// The parts that are to be divided later.
ghost use Rattle.std.specs.Prelude.{◌≡◌, ◌<◌, ◌↔◌, [], ◌∷◌, length, IsTrue, IfOk};
ghost use Rattle.ff_dc_tasks.specs.Walks.{Takes};

use ff_dc::Part;
use ff_rec::NoMemory;
use std::alloc::Global;
use std::marker::Model;

/// How many parts there is room for: a division is at most 24 levels deep.
const ROOM: usize = 25;

/// A part, and the path to it.
#[derive(Clone, Copy, Debug, Drop)]
pub(crate) struct Later {
    pub path: u32,
    pub part: Part,
}

/// Some parts, the one that was put in last first. There is room for 25.
#[derive(Drop)]
pub(crate) struct Todo {
    list: Vec<Later>,
}

impl Model for Todo {
    ghost use Rattle.std.specs.Prelude.{List, ◌≤◌, reverse, vec_capacity};
    ghost use Rattle.ff_dc_tasks.specs.declared.todo.Later.{Later};

    ghost Value = { List Later };

    ghost view = { λ t. reverse t.list.items };

    ghost invariant = { λ t. 25 ≤ vec_capacity t.list };
}

impl Todo {
    /// One part.
    pub(crate) fn of(alloc: Global, first: Later) -> Result<Todo, NoMemory>
        ensures { IfOk result (λ t. t ≡ first ∷ []) }
    {
        let mut list = Vec::with_capacity(alloc, ROOM)?;
        list.push_reserved(first);
        Ok(Todo { list })
    }

    /// Puts one more in front. It takes no memory.
    pub(crate) fn put(&mut self, later: Later)
        requires { length self.old < 25 }
        ensures { self.new ≡ later ∷ self.old }
    {
        self.list.push_reserved(later);
    }

    /// The first, which is taken out.
    pub(crate) fn take_first(&mut self) -> Option<Later>
        ensures { Takes self.old result self.new }
    {
        self.list.pop()
    }

    /// Whether there are none.
    pub(crate) fn is_empty(&self) -> bool
        ensures { IsTrue result ↔ (self.now ≡ []) }
    {
        self.list.is_empty()
    }
}
