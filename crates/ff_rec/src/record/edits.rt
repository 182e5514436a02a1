// Fields of a record that come, go, change places and change their case.
ghost use Rattle.std.specs.Prelude.{◌≡◌, ◌↔◌, ◌-◌, ◌≤◌, [], ◌∷◌, length, slice_index_or, slice_set, OnOk, OnErr, IsErrOf};
ghost use Rattle.std.specs.List.{remove, swap};
ghost use Rattle.ff_rec.specs.Cases.{in_case};
ghost use Rattle.ff_rec.specs.declared.fault.PushFault.TheVariants.{Full};

use super::Record;
use crate::block::{exchange, keep, push_front, set_case, take_out};
use crate::{Case, Field, MOST_FIELDS, NoMemory, PushFault};

impl Record {
    /// Adds a first field. After a refusal the record is unchanged.
    pub fn push_first(&mut self, field: &Field) -> Result<(), PushFault>
        ensures ok { OnOk result (self.new ≡ field.now ∷ self.old) }
        ensures full { IsErrOf result Full ↔ (length self.old ≡ MOST_FIELDS) }
        ensures err { OnErr result (self.new ≡ self.old) }
    {
        let count = self.block.count();
        if usize::from(count) == MOST_FIELDS {
            return Err(PushFault::Full);
        }
        match push_front(&mut self.block, field.bytes()) {
            Ok(()) => {
                self.block.set_count(count + 1);
                Ok(())
            }
            Err(NoMemory) => Err(PushFault::NoMemory),
        }
    }

    /// Puts the fields `k` and `l`, counted from 1, in each other's place. After a refusal the record is unchanged.
    pub fn swap(&mut self, k: usize, l: usize) -> Result<(), NoMemory>
        requires first_low { 1 ≤ k }
        requires first_high { k ≤ length self.old }
        requires second_low { 1 ≤ l }
        requires second_high { l ≤ length self.old }
        ensures ok { OnOk result (self.new ≡ swap self.old (k - 1) (l - 1)) }
        ensures err { OnErr result (self.new ≡ self.old) }
    {
        exchange(&mut self.block, k - 1, l - 1);
        Ok(())
    }

    /// Takes field `k`, counted from 1, out of two or more. It takes no memory.
    pub fn remove(&mut self, k: usize)
        requires low { 1 ≤ k }
        requires high { k ≤ length self.old }
        requires others { 2 ≤ length self.old }
        ensures { self.new ≡ remove self.old (k - 1) }
    {
        let count = self.block.count();
        take_out(&mut self.block, k - 1);
        self.block.set_count(count - 1);
    }

    /// Brings the letters of field `k`, counted from 1, to a case. It takes no memory.
    pub fn set_case(&mut self, k: usize, case: Case)
        requires low { 1 ≤ k }
        requires high { k ≤ length self.old }
        ensures { self.new ≡ slice_set self.old (k - 1) (in_case case (slice_index_or self.old (k - 1) [])) }
    {
        set_case(&mut self.block, k - 1, case);
    }

    /// Makes field `k`, counted from 1, the only field. It takes no memory.
    pub fn keep_only(&mut self, k: usize)
        requires low { 1 ≤ k }
        requires high { k ≤ length self.old }
        ensures { self.new ≡ slice_index_or self.old (k - 1) [] ∷ [] }
    {
        keep(&mut self.block, k - 1);
        self.block.set_count(1);
    }
}
