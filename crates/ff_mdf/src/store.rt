// The names that are put out, with their values.
ghost use Rattle.std.specs.Prelude.{◌≡◌, ◌<◌, ◌++◌, ◌∷◌, [], length, slice_get};
ghost use Rattle.std.specs.Prelude.{Some, option_map, IfOk, OnOk, OnErr};
ghost use Rattle.ff_mdf.specs.Stores.{entry};

use crate::{Name, Value};
use ff_rec::NoMemory;
use std::alloc::Global;
use std::marker::Model;

// A name that is put out, and its value.
#[derive(Debug, Drop)]
struct Stored {
    name: Name,
    value: Value,
}

/// The names that are put out, each with its value.
#[derive(Debug, Drop)]
pub struct Store {
    entries: Vec<Stored>,
}

impl Model for Store {
    ghost use Rattle.std.specs.Prelude.{List, map};
    ghost use Rattle.ff_mdf.specs.Stores.{Entry};
    ghost use Rattle.ff_mdf.specs.Stored.{entry_of};

    ghost Value = { List Entry };

    ghost view = { λ s. map entry_of s.entries.items };
}

impl Store {
    /// No names yet, with room for so many.
    pub fn with_capacity(alloc: Global, room: usize) -> Result<Store, NoMemory>
        ensures { IfOk result (λ s. s ≡ []) }
    {
        Ok(Store {
            entries: Vec::with_capacity(alloc, room)?,
        })
    }

    /// Adds a name with its value at the end. After a refusal nothing changed.
    pub fn push(&mut self, name: &Name, value: Value) -> Result<(), NoMemory>
        ensures ok { OnOk result (self.new ≡ self.old ++ entry name.now value ∷ []) }
        ensures err { OnErr result (self.new ≡ self.old) }
    {
        let name = name.copy();
        self.entries.push(Stored { name, value })?;
        Ok(())
    }

    /// How many names there are.
    pub fn len(&self) -> usize
        ensures { result ≡ length self.now }
    {
        self.entries.len()
    }

    /// Name `k`, counted from 0.
    pub fn name(&self, k: usize) -> &Name
        requires { k < length self.now }
        ensures { option_map (λ e. e.0) (slice_get self.now k) ≡ Some result.now }
    {
        &self.entries[k].name
    }

    /// Value `k`, counted from 0.
    pub fn value(&self, k: usize) -> Value
        requires { k < length self.now }
        ensures { option_map (λ e. e.1) (slice_get self.now k) ≡ Some result }
    {
        self.entries[k].value
    }
}
