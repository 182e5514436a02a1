// Sums by key.
ghost use Rattle.std.specs.Prelude.{◌≡◌, ◌∷◌, [], map, OnOk, OnErr};
ghost use Rattle.ff_rec.specs.Lines.{IsPlain};
ghost use Rattle.ff_ops.specs.Entries.{changed};
ghost use Rattle.ff_ops.specs.KeyedOps.{summed};
ghost use Rattle.ff_ops.specs.KeyedTakes.{total_record};
ghost use Rattle.ff_node.specs.Sends.{add};

use crate::entries::{in_order, put_new, send_entry};
use crate::fold_op::{above, add_capped, below, difference};
use ff_node::Sends;
use ff_rec::NoMemory;
use std::alloc::Global;
use std::collections::HashMap;
use std::marker::Model;

/// The sum of the numbers above 0 of each key, and that of the absolute values of those below.
#[derive(Debug, Drop)]
pub struct Totals {
    sums: HashMap<Vec<u8>, (u128, u128)>,
    alloc: Global,
}

impl Model for Totals {
    ghost use Rattle.std.specs.Prelude.{List, ℕ};
    ghost use Rattle.ff_ops.specs.Entries.{Entry};
    ghost use Rattle.ff_ops.specs.Tables.{by_key, ArePlain};

    ghost Value = { List (Entry (ℕ × ℕ)) };

    ghost view = { λ t. by_key t.sums.entries };

    ghost invariant = { λ t. ArePlain t.sums.entries };
}

impl Totals {
    /// Nothing was added yet.
    pub fn new(alloc: Global) -> Totals
        ensures { result ≡ [] }
    {
        Totals {
            sums: HashMap::new(alloc),
            alloc,
        }
    }

    /// Adds a number to the sums of a key. After a refusal the sums are unchanged.
    pub fn add(&mut self, key: &[u8], x: i64) -> Result<(), NoMemory>
        requires { IsPlain key.now }
        ensures ok { OnOk result (self.new ≡ changed (0, 0) key.now (summed x) self.old) }
        ensures err { OnErr result (self.new ≡ self.old) }
    {
        if let Some(sums) = self.sums.get_mut(key) {
            *sums = sums_with(*sums, x);
            return Ok(());
        }
        put_new(&mut self.sums, self.alloc, key, sums_with((0, 0), x))
    }

    /// None of the entries of it, with the same allocator.
    pub fn opening(&self) -> Totals
        ensures { result ≡ [] }
    {
        Totals::new(self.alloc)
    }

    /// Sends a record of each key and the total of its sums, in byte order of the keys.
    pub fn send(&self, out: &mut Sends) -> Result<(), NoMemory>
        ensures { OnOk result (out.new ≡ add out.old (map total_record self.now) []) }
    {
        for (key, (plus, minus)) in &in_order(&self.sums, self.alloc)? {
            send_entry(self.alloc, key, difference(*plus, *minus), out)?;
        }
        Ok(())
    }
}

// The two sums of a key, with one number more.
fn sums_with(sums: (u128, u128), x: i64) -> (u128, u128)
    ensures { result ≡ summed x sums }
{
    (add_capped(sums.0, above(x)), add_capped(sums.1, below(x)))
}
