// Values by key: in a hash map while records come, and in byte order of the keys at the end.
ghost use Rattle.std.specs.Prelude.{◌≡◌, ◌∷◌, [], IfOk, OnOk, OnErr, None};
ghost use Rattle.std.specs.HashMap.{IsUnchanged};
ghost use Rattle.ff_rec.specs.Lines.{IsPlain};
ghost use Rattle.ff_rec.specs.Number.{printed};
ghost use Rattle.ff_node.specs.Sends.{add};
ghost use Rattle.ff_ops.specs.Tables.{at_key, by_key, read_by, AreApart, ArePlain, IsNewAt};

use ff_node::Sends;
use ff_rec::{NoMemory, Record, print_number};
use std::alloc::Global;
use std::collections::{BTreeMap, HashMap};

/// Gives a new key its value. After a refusal the values are unchanged.
pub fn put_new<V: Drop>(
    values: &mut HashMap<Vec<u8>, V>,
    alloc: Global,
    key: &[u8],
    value: V,
) -> Result<(), NoMemory>
    requires new { at_key values.old.entries key.now ≡ None }
    requires apart { AreApart values.old.entries }
    requires plain { IsPlain key.now }
    requires all_plain { ArePlain values.old.entries }
    ensures ok { OnOk result (IsNewAt (by_key values.old.entries) key.now value (by_key values.new.entries)) }
    ensures err { OnErr result (IsUnchanged values.old values.new) }
    ensures all_plain { ArePlain values.new.entries }
{
    let key = Vec::from_slice(alloc, key)?;
    values.insert(key, value)?;
    Ok(())
}

/// The values in byte order of their keys.
pub fn in_order<V: Copy>(
    values: &HashMap<Vec<u8>, V>,
    alloc: Global,
) -> Result<BTreeMap<&[u8], V>, NoMemory>
    ensures { IfOk result (λ sorted. read_by (λ k. k.now) sorted.entries ≡ by_key values.now.entries) }
{
    let mut sorted = BTreeMap::new(alloc);
    for (key, value) in values {
        sorted.insert(key.as_slice(), *value)?;
    }
    Ok(sorted)
}

/// Sends the record of a key and a number.
pub fn send_entry(alloc: Global, key: &[u8], n: i128, out: &mut Sends) -> Result<(), NoMemory>
    requires { IsPlain key.now }
    ensures { OnOk result (out.new ≡ add out.old ((key.now ∷ printed n ∷ []) ∷ []) []) }
{
    let mut r = Record::of_plain(alloc, key)?;
    match r.push(&print_number(alloc, n)?) {
        Ok(()) => out.send(r),
        Err(_) => Err(NoMemory),
    }
}
