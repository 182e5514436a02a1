// The numbers of tasks that are out.
ghost use Rattle.std.specs.Prelude.{◌≡◌, ◌<◌, ◌++◌, ◌∷◌, [], length, replicate, IfOk, OnOk, OnErr};

use ff_rec::NoMemory;
use std::alloc::Global;
use std::collections::VecDeque;
use std::marker::Model;

/// Numbers in their order, of which the first is taken out.
#[derive(Drop)]
pub(crate) struct Numbers {
    list: VecDeque<u64>,
}

impl Model for Numbers {
    ghost use Rattle.std.specs.Prelude.{List, ℕ};

    ghost Value = { List ℕ };

    ghost view = { λ n. n.list.items };
}

impl Numbers {
    // No numbers.
    fn new(alloc: Global) -> Numbers
        ensures { result ≡ [] }
    {
        Numbers {
            list: VecDeque::new(alloc),
        }
    }

    /// Adds a number at the end. After a refusal nothing changed.
    pub(crate) fn push(&mut self, id: u64) -> Result<(), NoMemory>
        ensures ok { OnOk result (self.new ≡ self.old ++ id ∷ []) }
        ensures err { OnErr result (self.new ≡ self.old) }
    {
        self.list.push_back(id)?;
        Ok(())
    }

    /// The first number, which is taken out.
    pub(crate) fn take_first(&mut self) -> u64
        requires { 0 < length self.old }
        ensures { self.old ≡ result ∷ self.new }
    {
        self.list.pop_front().unwrap()
    }

    /// How many there are.
    pub(crate) fn len(&self) -> usize
        ensures { result ≡ length self.now }
    {
        self.list.len()
    }
}

/// No numbers for each of so many workers.
pub(crate) fn none_for(alloc: Global, workers: u32) -> Result<Vec<Numbers>, NoMemory>
    ensures { IfOk result (λ all. all.items ≡ replicate workers []) }
{
    let mut all = Vec::new(alloc);
    for _ in 0..workers {
        all.push(Numbers::new(alloc))?;
    }
    Ok(all)
}
