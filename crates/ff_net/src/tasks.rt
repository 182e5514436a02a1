// The tasks and the results of a wrap.
ghost use Rattle.std.specs.Prelude.{IfOk};
ghost use Rattle.ff_net.specs.Levels.{meets};
ghost use Rattle.ff_net.specs.Sorts.{HasSorted};

use crate::Test;
use ff_node::{Records, Sends};
use ff_rec::NoMemory;

/// What came of a wrap so far.
#[derive(Drop)]
pub struct Tasks {
    /// The tasks that wait.
    pub next: Records,
    /// How many more tasks there may be.
    pub room: u64,
    pub results: Records,
}

/// Takes out what was sent: where the test is met it is a new task, else a result. The answer is whether there was room
/// for all tasks; it stops at the first for which there is none.
pub fn sort(test: &Test, tasks: &mut Tasks, out: &mut Sends) -> Result<bool, NoMemory>
    ensures { IfOk result (λ all. HasSorted (meets test.now) tasks.old tasks.new out.old out.new all) }
{
    while let Some(r) = out.take_first() {
        if !test.is_met(&r) {
            tasks.results.push(r)?;
        } else if tasks.room == 0 {
            return Ok(false);
        } else {
            tasks.room -= 1;
            tasks.next.push(r)?;
        }
    }
    Ok(true)
}
