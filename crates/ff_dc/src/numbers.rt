// The numbers that rules run over.
ghost use Rattle.std.specs.List.{All};
ghost use Rattle.ff_rec.specs.Number.{IsNumber};
ghost use Rattle.std.specs.Prelude.{◌≡◌, [], ◌∷◌, ◌++◌, length, OnOk, OnErr, IfOk};

use ff_rec::{Kept, NoMemory};
use std::alloc::Global;
use std::marker::Model;

/// A list of numbers.
#[derive(Debug, Drop)]
pub struct Numbers {
    list: Vec<i64>,
}

impl Model for Numbers {
    ghost use Rattle.std.specs.Prelude.{List, ℤ};
    ghost use Rattle.std.specs.List.{All};
    ghost use Rattle.ff_rec.specs.Number.{IsNumber};

    ghost Value = { List ℤ };

    ghost view = { λ n. n.list.items };

    ghost invariant = { λ n. All IsNumber n.list.items };
}

impl Numbers {
    /// No numbers.
    pub fn new(alloc: Global) -> Numbers
        ensures { result ≡ [] }
    {
        Numbers {
            list: Vec::new(alloc),
        }
    }

    /// Adds a number at the end. After a refusal nothing changed.
    pub fn push(&mut self, n: i64) -> Result<(), NoMemory>
        ensures ok { OnOk result (self.new ≡ self.old ++ n ∷ []) }
        ensures err { OnErr result (self.new ≡ self.old) }
    {
        self.list.push(n)?;
        Ok(())
    }

    /// Takes all numbers out. The room for them stays.
    pub fn clear(&mut self)
        ensures { self.new ≡ [] }
    {
        self.list.clear();
    }

    /// How many there are.
    pub fn len(&self) -> usize
        ensures { result ≡ length self.now }
    {
        self.list.len()
    }

    /// The numbers in their order.
    pub fn as_slice(&self) -> &[i64]
        ensures same { result.now ≡ self.now }
        ensures numbers { All IsNumber result.now }
    {
        self.list.as_slice()
    }
}

impl Kept for Numbers {
    fn copy(&self) -> Result<Numbers, NoMemory> {
        Ok(Numbers {
            list: Vec::from_slice(*self.list.allocator(), self.list.as_slice())?,
        })
    }
}
