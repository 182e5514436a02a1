// The statements that are or were ready.
ghost use Rattle.std.specs.Prelude.{◌≡◌, ◌<◌, ◌^◌, [], length, slice_get, IfOk, IfSome, OnOk};
ghost use Rattle.ff_mdf_tasks.specs.Queues.{queue_added};

use ff_rec::NoMemory;
use std::alloc::Global;
use std::marker::Model;

/// Numbers below a size, each once, in the order in which they came. Its room is taken once.
#[derive(Drop)]
pub(crate) struct Queue {
    order: Vec<usize>,
    // Which numbers stand in it.
    has: Vec<bool>,
}

impl Model for Queue {
    ghost use Rattle.std.specs.Prelude.{length};
    ghost use Rattle.ff_mdf_tasks.specs.Queues.{QueueState, AreMarked};

    ghost Value = { QueueState };

    ghost view = { λ q. record { order = q.order.items; size = length q.has.items } };

    ghost invariant = { λ q. AreMarked q.has.items q.order.items };
}

impl Queue {
    /// No numbers yet.
    pub(crate) fn new(alloc: Global, size: usize) -> Result<Queue, NoMemory>
        ensures { IfOk result (λ q. q ≡ record { order = []; size = size }) }
    {
        let order = Vec::with_capacity(alloc, size)?;
        let has = vec![in alloc; false; size]?;
        Ok(Queue { order, has })
    }

    /// Adds a number at the end, unless it was added before.
    pub(crate) fn add(&mut self, k: usize) -> Result<(), NoMemory>
        requires { k < self.old.size }
        ensures { OnOk result (self.new ≡ queue_added k self.old) }
    {
        if self.has[k] {
            return Ok(());
        }
        self.order.push(k)?;
        self.has[k] = true;
        Ok(())
    }

    /// The number at place `i`.
    pub(crate) fn get(&self, i: usize) -> Option<usize>
        ensures at { result ≡ slice_get self.now.order i }
        ensures bound { IfSome result (λ _. i < 2 ^ 63) }
    {
        self.order.get(i).copied()
    }

    /// How many numbers there are.
    pub(crate) fn len(&self) -> usize
        ensures { result ≡ length self.now.order }
    {
        self.order.len()
    }
}
