// Where bundles reach the reader.
ghost use Rattle.std.specs.Prelude.{◌≡◌, ◌<◌, [], length};
ghost use Rattle.std.proofs.Common.{deque_capacity};
ghost use Rattle.rtrb.specs.Ring.{known_items};
ghost use Rattle.ff_ring.specs.Inlets.{GoesBack};

use crate::bundle::{Bundle, Emptied, Filled};
use crate::ringer::Ringer;
use rtrb::{Consumer, Producer, PushError};
use std::alloc::Global;
use std::mem;

/// The reader's ends of both ways, and the way to the bell of the writer's thread.
#[derive(Drop)]
pub(crate) struct Inlet<T> {
    pub(crate) end: Consumer<Bundle<T>, Global, Filled>,
    pub(crate) spares: Producer<Bundle<T>, Global, Emptied>,
    pub(crate) writer: Ringer,
}

impl<T> Inlet<T> {
    ghost use Rattle.rtrb.specs.Ring.{consumer_capacity};
    ghost use Rattle.ff_ring.specs.Inlets.{TakesOver, GoesBack};
    ghost use Rattle.ff_ring.specs.Ringers.{Notes, told_of_blocks};

    /// Takes the next bundle in place of an emptied one, which goes back. The writer is told of it at once where that is asked
    /// for.
    pub(crate) fn take_over(&mut self, bundle: &mut Bundle<T>, eager: bool)
        requires known { 0 < length (known_items self.old.end) }
        requires empty { bundle.old.items ≡ [] }
        requires roomy { 0 < deque_capacity bundle.old }
        ensures exchanged { TakesOver self.old bundle.old self.new bundle.new }
        ensures told { Notes eager (told_of_blocks (consumer_capacity self.old.end)) self.old.writer self.new.writer }
    {
        let filled = self.end.pop_known();
        let emptied = mem::replace(bundle, filled);
        give_back(&mut self.spares, emptied);
        self.writer.note(eager, self.end.capacity().div_ceil(2));
    }
}

// Gives an emptied block back to the writer. There is a place for each block, so none is ever dropped here.
fn give_back<T>(spares: &mut Producer<Bundle<T>, Global, Emptied>, block: Bundle<T>)
    requires empty { block.items ≡ [] }
    requires roomy { 0 < deque_capacity block }
    ensures { GoesBack spares.old block spares.new }
{
    match spares.push(block) {
        Ok(()) => {}
        Err(PushError::Full(block)) => block.destroy_empty(),
    }
}
