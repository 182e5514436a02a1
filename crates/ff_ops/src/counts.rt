// Counts by key.
ghost use Rattle.std.specs.Prelude.{◌≡◌, ◌∷◌, [], map, pos, OnOk, OnErr};
ghost use Rattle.ff_rec.specs.Lines.{IsPlain};
ghost use Rattle.ff_ops.specs.Entries.{changed};
ghost use Rattle.ff_ops.specs.KeyedOps.{counted_more};
ghost use Rattle.ff_ops.specs.KeyedTakes.{tally_record};
ghost use Rattle.ff_node.specs.Sends.{add};

use crate::entries::{in_order, put_new, send_entry};
use ff_node::Sends;
use ff_rec::NoMemory;
use std::alloc::Global;
use std::collections::HashMap;
use std::marker::Model;

/// How often each key was counted.
#[derive(Debug, Drop)]
pub struct Counts {
    counts: HashMap<Vec<u8>, u64>,
    alloc: Global,
}

impl Model for Counts {
    ghost use Rattle.std.specs.Prelude.{List, ℕ};
    ghost use Rattle.ff_ops.specs.Entries.{Entry};
    ghost use Rattle.ff_ops.specs.Tables.{by_key, ArePlain};

    ghost Value = { List (Entry ℕ) };

    ghost view = { λ c. by_key c.counts.entries };

    ghost invariant = { λ c. ArePlain c.counts.entries };
}

impl Counts {
    /// Nothing was counted yet.
    pub fn new(alloc: Global) -> Counts
        ensures { result ≡ [] }
    {
        Counts {
            counts: HashMap::new(alloc),
            alloc,
        }
    }

    /// Counts a key once more, up to 2^64 - 1. After a refusal the counts are unchanged.
    pub fn count(&mut self, key: &[u8]) -> Result<(), NoMemory>
        requires { IsPlain key.now }
        ensures ok { OnOk result (self.new ≡ changed 0 key.now counted_more self.old) }
        ensures err { OnErr result (self.new ≡ self.old) }
    {
        if let Some(count) = self.counts.get_mut(key) {
            *count = count.saturating_add(1);
            return Ok(());
        }
        put_new(&mut self.counts, self.alloc, key, 1)
    }

    /// None of the entries of it, with the same allocator.
    pub fn opening(&self) -> Counts
        ensures { result ≡ [] }
    {
        Counts::new(self.alloc)
    }

    /// Sends a record of each key and its count, in byte order of the keys.
    pub fn send(&self, out: &mut Sends) -> Result<(), NoMemory>
        ensures { OnOk result (out.new ≡ add out.old (map tally_record self.now) []) }
    {
        for (key, count) in &in_order(&self.counts, self.alloc)? {
            send_entry(self.alloc, key, i128::from(*count), out)?;
        }
        Ok(())
    }
}
