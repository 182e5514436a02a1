// A list of records that is used up from its front.
ghost use Rattle.std.specs.Prelude.{◌≡◌, ◌↔◌, ◌≤◌, [], ◌∷◌, ◌++◌, None, length, slice_get, IsTrue, OnOk, OnErr, MatchOption, Some, IfOk};
ghost use Rattle.ff_rec.specs.Records.{TakesFirst};

use crate::{Kept, NoMemory, Record};
use std::alloc::Global;
use std::collections::VecDeque;
use std::marker::Model;

/// A list of records.
#[derive(Debug, Drop)]
pub struct Records {
    list: VecDeque<Record>,
}

impl Model for Records {
    ghost use Rattle.std.specs.Prelude.{List};
    ghost use Rattle.ff_rec.specs.Lines.{Rec};

    ghost Value = { List Rec };

    ghost view = { λ r. r.list.items };
}

impl Records {
    /// No records.
    pub fn new(alloc: Global) -> Records
        ensures { result ≡ [] }
    {
        Records {
            list: VecDeque::new(alloc),
        }
    }

    /// The records of this queue.
    pub fn of(list: VecDeque<Record>) -> Records
        ensures { result ≡ list.items }
    {
        Records { list }
    }

    /// Adds a record at the end. After a refusal nothing changed.
    pub fn push(&mut self, r: Record) -> Result<(), NoMemory>
        ensures ok { OnOk result (self.new ≡ self.old ++ r ∷ []) }
        ensures err { OnErr result (self.new ≡ self.old) }
    {
        self.list.push_back(r)?;
        Ok(())
    }

    /// How many there are.
    pub fn len(&self) -> usize
        ensures { result ≡ length self.now }
    {
        self.list.len()
    }

    /// Whether there is none.
    pub fn is_empty(&self) -> bool
        ensures { IsTrue result ↔ (self.now ≡ []) }
    {
        self.list.is_empty()
    }

    /// Record `k`, counted from 0.
    pub fn get(&self, k: usize) -> Option<&Record>
        ensures { MatchOption result (length self.now ≤ k)
            (λ r. slice_get self.now k ≡ Some r.now) }
    {
        self.list.get(k)
    }

    /// The first record, which is taken out.
    pub fn take_first(&mut self) -> Option<Record>
        ensures { TakesFirst self.old result self.new }
    {
        self.list.pop_front()
    }
}

impl Kept for Records {
    fn copy(&self) -> Result<Records, NoMemory> {
        Ok(Records {
            list: copies(&self.list)?,
        })
    }
}

/// These records in their order, in memory of their own.
pub fn copies(list: &VecDeque<Record>) -> Result<VecDeque<Record>, NoMemory>
    ensures { IfOk result (λ other. other.items ≡ list.now.items) }
{
    let mut other = VecDeque::with_capacity(*list.allocator(), list.len())?;
    for r in list.iter() {
        other.push_back(r.copy()?)?;
    }
    Ok(other)
}
