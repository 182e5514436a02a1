// What is written of a store.
ghost use Rattle.std.specs.Prelude.{◌≡◌, ◌++◌, OnOk};
ghost use Rattle.ff_mdf.specs.Stores.{entry};
ghost use Rattle.ff_call_mdf.specs.StoreText.{entry_line, store_text};

use ff_mdf::{Name, Store, Value};
use ff_rec::NoMemory;
use itoa::Buffer;

/// Appends a line for each name of a store: the name, a tab and its value, or `bad`. After a
/// refusal some of it may have been appended.
pub fn print_store(store: &Store, into: &mut Vec<u8>) -> Result<(), NoMemory>
    ensures { OnOk result (into.new.items ≡ into.old.items ++ store_text store.now) }
{
    for k in 0..store.len() {
        print_entry(store.name(k), store.value(k), into)?;
    }
    Ok(())
}

// Appends the line of a name and its value.
fn print_entry(name: &Name, value: Value, into: &mut Vec<u8>) -> Result<(), NoMemory>
    ensures { OnOk result (into.new.items ≡ into.old.items ++ entry_line (entry name.now value)) }
{
    into.extend_from_slice(name.bytes())?;
    into.push(b'\t')?;
    match value {
        Value::Num(n) => into.extend_from_slice(Buffer::new().format(n).as_bytes())?,
        Value::Bad => into.extend_from_slice(b"bad")?,
    }
    into.push(b'\n')?;
    Ok(())
}
