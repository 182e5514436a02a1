// What a node's calls gather for their caller.
ghost use Rattle.std.specs.Prelude.{◌≡◌, ◌<◌, ◌∷◌, [], length, false, IsOk, OnOk, OnErr};
ghost use Rattle.std.proofs.Common.{deque_len, deque_capacity};
ghost use Rattle.ff_node.specs.Sends.{add, nothing_sent, IsCounted};

mod taken;

use ff_rec::{Kept, NoMemory, Record, copies};
use std::alloc::Global;
use std::collections::VecDeque;
use std::marker::Model;

/// The records that a node sent, and the number of those that it rejected, which are kept where that is asked for.
#[derive(Debug, Drop)]
pub struct Sends {
    // The first of the sends where none stood before it: one record at a time touches no queue.
    first: Option<Record>,
    more: VecDeque<Record>,
    rejects: u64,
    keeps: bool,
    kept: VecDeque<Record>,
}

impl Model for Sends {
    ghost use Rattle.ff_node.specs.Sends.{Sent, IsCounted};
    ghost use Rattle.std.specs.Prelude.{◌++◌};
    ghost use Rattle.std.specs.Option.{option_to_list};

    ghost Value = { Sent };

    ghost view = { λ s. record { sends = option_to_list s.first ++ s.more.items; rejects = s.rejects; keeps = s.keeps; kept = s.kept.items } };

    ghost invariant = { λ s. IsCounted (record { sends = option_to_list s.first ++ s.more.items; rejects = s.rejects; keeps = s.keeps; kept = s.kept.items }) };
}

impl Sends {
    /// Nothing yet. Rejects are counted, and where `keep` says so kept, too.
    pub fn new(alloc: Global, keep: bool) -> Sends
        ensures { result ≡ nothing_sent keep }
    {
        Sends {
            first: None,
            more: VecDeque::new(alloc),
            rejects: 0,
            keeps: keep,
            kept: VecDeque::new(alloc),
        }
    }

    /// Adds a record to those sent. After a refusal nothing changed.
    #[inline(always)]
    pub fn send(&mut self, r: Record) -> Result<(), NoMemory>
        ensures ok { OnOk result (self.new ≡ add self.old (r ∷ []) []) }
        ensures err { OnErr result (self.new ≡ self.old) }
    {
        if self.first.is_some() || !self.more.is_empty() {
            make_room(&mut self.more)?;
            self.more.push_back_reserved(r);
            return Ok(());
        }
        self.first = Some(r);
        Ok(())
    }

    /// Counts a rejected record, up to 2^64 - 1, and keeps it where rejects are kept. After a refusal nothing changed;
    /// where rejects aren't kept there is none.
    pub fn reject(&mut self, r: Record) -> Result<(), NoMemory>
        ensures ok { OnOk result (self.new ≡ add self.old [] (r ∷ [])) }
        ensures err { OnErr result (self.new ≡ self.old) }
        ensures counting { self.old.keeps ≡ false → IsOk result }
    {
        if self.keeps {
            self.kept.push_back(r)?;
        }
        self.rejects = self.rejects.saturating_add(1);
        Ok(())
    }

    /// How many records were sent and not taken yet.
    #[inline]
    pub fn len(&self) -> usize
        ensures { result ≡ length self.now.sends }
    {
        usize::from(self.first.is_some()) + self.more.len()
    }

    /// How many records were rejected, up to 2^64 - 1.
    pub fn rejects(&self) -> u64
        ensures number { result ≡ self.now.rejects }
        ensures counted { IsCounted self.now }
    {
        self.rejects
    }

    /// Whether rejects are kept.
    pub fn keeps(&self) -> bool
        ensures { result ≡ self.now.keeps }
    {
        self.keeps
    }
}

// Makes room in the queue for one more. It stands apart, and no record goes through memory on the way there.
#[inline(never)]
fn make_room(queue: &mut VecDeque<Record>) -> Result<(), NoMemory>
    ensures same { queue.new.items ≡ queue.old.items }
    ensures room { OnOk result (deque_len queue.new < deque_capacity queue.new) }
{
    queue.reserve(1)?;
    Ok(())
}

impl Kept for Sends {
    fn copy(&self) -> Result<Sends, NoMemory> {
        let first = match &self.first {
            Some(r) => Some(r.copy()?),
            None => None,
        };
        Ok(Sends {
            first,
            more: copies(&self.more)?,
            rejects: self.rejects,
            keeps: self.keeps,
            kept: copies(&self.kept)?,
        })
    }
}
