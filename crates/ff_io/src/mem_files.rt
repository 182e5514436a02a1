// Files in memory, for tests and for callers of the library.
ghost use Rattle.std.specs.Prelude.{◌≡◌, ◌<◌, ◌≤◌, Some, None, length, position, string_bytes, IfOk, IfSome, IsErr, IsNone, OnErr, OnOk, IsSomeAnd, is_err, is_none};
ghost use Rattle.std.specs.Str.{bytes_eq};
ghost use Rattle.ff_io.specs.Cabinet.{CabinetLoads, CabinetStores, entries_of, held, opened_cabinet, with_file};
ghost use Rattle.ff_io.specs.Faults.{HasCause, count_after};
ghost use Rattle.ff_io.specs.Files.{HoldsBytes, HoldsMore, KeepsAll, KeepsOthers, load_fault, store_fault};

use crate::{FileFault, Files, StoreFault};
use ff_rec::NoMemory;
use std::alloc::Global;
use std::marker::Model;

/// Files that are kept in a list. Their count rises only at a call that is made to fail, and at a load of a name that
/// isn't there.
#[derive(Debug, Drop)]
pub struct MemFiles {
    list: Vec<(String, Vec<u8>)>,
    fail: Vec<u64>,
    calls: u64,
    faults: u64,
}

impl Model for MemFiles {
    ghost use Rattle.ff_io.specs.Cabinet.{Cabinet, entries_of};

    ghost Value = { Cabinet };

    ghost view = { λ s. record { files = entries_of s.list.items; fail = s.fail.items; calls = s.calls; faults = s.faults } };
}

impl MemFiles {
    /// The files of this list, by their names; of two with one name the first counts. Each load and each store is a call,
    /// and the calls with these numbers, counted from 1, fail.
    pub fn new(list: Vec<(String, Vec<u8>)>, fail: Vec<u64>) -> MemFiles
        ensures { result ≡ opened_cabinet (entries_of list.items) fail.items }
    {
        MemFiles {
            list,
            fail,
            calls: 0,
            faults: 0,
        }
    }

    /// What a name holds. It is no call that can fail.
    pub fn content(&self, name: &str) -> Option<&[u8]>
        ensures some { IfSome result (λ content. held self.now.files name.now ≡ Some content.now) }
        ensures none { IsNone result → held self.now.files name.now ≡ None }
    {
        find(&self.list, name)
    }
}

impl Files for MemFiles {
    ghost told = { λ s. Some (held s.files) };

    ghost faults = { λ s. s.faults };

    fn load(&mut self, name: &str, limit: usize) -> Result<Vec<u8>, FileFault>
        ensures within { IfOk result (λ content. length content.items ≤ limit) }
        ensures content { IfOk result (λ content. HoldsBytes (Some (held self.old.files)) name.now content.items) }
        ensures long { IfSome (Some (held self.old.files)) (λ holds. IfSome (holds name.now) (λ bytes. limit < length bytes → IsErr result)) }
        ensures too_long { result ≡ Err FileFault.TooLong → HoldsMore (Some (held self.old.files)) name.now limit }
        ensures keeps { KeepsAll (Some (held self.old.files)) (Some (held self.new.files)) }
        ensures cause { HasCause self.old.faults self.new.faults (load_fault result) }
        ensures counts { self.new.faults ≡ count_after self.old.faults (load_fault result) }
        ensures loads { CabinetLoads self.old name.now result self.new }
    {
        self.calls = self.calls.saturating_add(1);
        let answer = if self.fail.contains(&self.calls) {
            Err(FileFault::Failed)
        } else {
            copy(*self.list.allocator(), &self.list, name, limit)
        };
        if matches!(answer, Err(FileFault::Failed)) {
            self.faults = self.faults.saturating_add(1);
        }
        answer
    }

    #[tactic(auto, using(crate::proofs::Cabinets::cabinet_steps))]
    fn store(&mut self, name: &str, bytes: &[u8]) -> Result<(), StoreFault>
        ensures holds { OnOk result (HoldsBytes (Some (held self.new.files)) name.now bytes.now) }
        ensures others { KeepsOthers (Some (held self.old.files)) (Some (held self.new.files)) name.now }
        ensures cause { HasCause self.old.faults self.new.faults (store_fault result) }
        ensures counts { self.new.faults ≡ count_after self.old.faults (store_fault result) }
        ensures stores { CabinetStores self.old name.now bytes.now result self.new }
    {
        self.calls = self.calls.saturating_add(1);
        if self.fail.contains(&self.calls) {
            self.faults = self.faults.saturating_add(1);
            return Err(StoreFault::Failed);
        }
        put(&mut self.list, name, bytes)?;
        Ok(())
    }
}

// The place of the first entry with this name.
fn place(list: &[(String, Vec<u8>)], name: &str) -> Option<usize>
    ensures { result ≡ position (λ entry. bytes_eq (string_bytes entry.0) name.now) list.now }
{
    list.iter().position(|entry| entry.0.as_str() == name)
}

// What the first entry with this name holds.
#[tactic(auto, using(crate::proofs::Cabinets::cabinet_steps))]
fn find<'a>(list: &'a [(String, Vec<u8>)], name: &str) -> Option<&'a [u8]>
    ensures some { IfSome result (λ content. held (entries_of list.now) name.now ≡ Some content.now) }
    ensures none { IsNone result → held (entries_of list.now) name.now ≡ None }
{
    let k = place(list, name)?;
    Some(list[k].1.as_slice())
}

// A copy of what the first entry with this name holds, if it is within the limit.
fn copy(
    alloc: Global,
    list: &[(String, Vec<u8>)],
    name: &str,
    limit: usize,
) -> Result<Vec<u8>, FileFault>
    ensures content { IfOk result (λ content. held (entries_of list.now) name.now ≡ Some content.items) }
    ensures within { IfOk result (λ content. length content.items ≤ limit) }
    ensures too_long { result ≡ Err FileFault.TooLong → IsSomeAnd (held (entries_of list.now) name.now) (λ bytes. limit < length bytes) }
    ensures fails { is_err (load_fault result) ≡ is_none (held (entries_of list.now) name.now) }
{
    let Some(content) = find(list, name) else {
        return Err(FileFault::Failed);
    };
    if content.len() > limit {
        return Err(FileFault::TooLong);
    }
    Ok(content.to_vec(alloc)?)
}

// Lets a name hold these bytes.
#[tactic(auto, using(crate::proofs::Cabinets::cabinet_steps))]
fn put(list: &mut Vec<(String, Vec<u8>)>, name: &str, bytes: &[u8]) -> Result<(), NoMemory>
    ensures ok { OnOk result (entries_of list.new.items ≡ with_file (entries_of list.old.items) name.now bytes.now) }
    ensures err { OnErr result (list.new.items ≡ list.old.items) }
{
    let alloc = *list.allocator();
    let content = bytes.to_vec(alloc)?;
    match place(list, name) {
        Some(k) => list[k].1 = content,
        None => list.push((String::from_str(alloc, name)?, content))?,
    }
    Ok(())
}
