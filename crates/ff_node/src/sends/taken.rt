// How what was gathered is taken out.
ghost use Rattle.std.specs.Prelude.{◌≡◌, [], drop, IfOk, OnOk, OnErr};
ghost use Rattle.ff_node.specs.Sends.{rejects_alone, sent_before, IsFirst, TakesSend, TakesReject};

use super::Sends;
use ff_rec::{NoMemory, Record, Records};
use std::collections::VecDeque;
use std::mem;

impl Sends {
    /// The first record that was sent.
    pub fn take_first(&mut self) -> Option<Record>
        ensures { TakesSend self.old result self.new }
    {
        if self.first.is_none() {
            return self.more.pop_front();
        }
        self.first.take()
    }

    /// The first record that was sent, where it stands.
    #[inline]
    pub fn first(&self) -> Option<&Record>
        ensures { IsFirst self.now result }
    {
        match &self.first {
            Some(r) => Some(r),
            None => self.more.front(),
        }
    }

    /// Lets the first record that was sent go, if there is one.
    #[inline]
    pub fn drop_first(&mut self)
        ensures { self.new ≡ record self.old { sends = drop 1 self.old.sends } }
    {
        if self.first.is_some() {
            self.first = None;
        } else {
            drop(self.more.pop_front());
        }
    }

    /// All records that were sent, at once. After a refusal nothing changed.
    pub fn take_sends(&mut self) -> Result<Records, NoMemory>
        ensures sent { IfOk result (λ sent. sent ≡ self.old.sends) }
        ensures left { OnOk result (self.new ≡ rejects_alone self.old) }
        ensures err { OnErr result (self.new ≡ self.old) }
    {
        Ok(Records::of(self.take_queue()?))
    }

    /// All records that were sent, as a queue. After a refusal nothing changed.
    pub(crate) fn take_queue(&mut self) -> Result<VecDeque<Record>, NoMemory>
        ensures sent { IfOk result (λ sent. sent.items ≡ self.old.sends) }
        ensures left { OnOk result (self.new ≡ rejects_alone self.old) }
        ensures err { OnErr result (self.new ≡ self.old) }
    {
        if let Some(r) = self.first.take() {
            if let Err(refused) = self.more.push_front(r) {
                self.first = Some(refused.value);
                return Err(NoMemory);
            }
        }
        let none = VecDeque::new(*self.more.allocator());
        Ok(mem::replace(&mut self.more, none))
    }

    /// Puts these records in front of those that were sent. After `NoMemory` nothing is promised of the sends.
    pub(crate) fn put_before(&mut self, mut before: VecDeque<Record>) -> Result<(), NoMemory>
        ensures { OnOk result (self.new ≡ sent_before before.items self.old) }
    {
        if before.is_empty() {
            return Ok(());
        }
        if let Some(r) = self.first.take() {
            before.push_back(r)?;
        }
        before.append(&mut self.more)?;
        self.more = before;
        Ok(())
    }

    /// The first reject that is kept.
    pub fn take_reject(&mut self) -> Option<Record>
        ensures { TakesReject self.old result self.new }
    {
        self.kept.pop_front()
    }

    /// All rejects that are kept, at once. Their number stays.
    pub fn take_kept(&mut self) -> Records
        ensures kept { result ≡ self.old.kept }
        ensures left { self.new ≡ record self.old { kept = [] } }
    {
        let alloc = *self.kept.allocator();
        Records::of(mem::replace(&mut self.kept, VecDeque::new(alloc)))
    }
}
