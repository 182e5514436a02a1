// Tasks that become ready.
ghost use Rattle.std.specs.Prelude.{◌≡◌, ◌<◌, length, IfOk, OnOk};
ghost use Rattle.ff_mdf_tasks.specs.ByLinks.{answer_in};
ghost use Rattle.ff_mdf_tasks.specs.Queues.{QueuesReady, QueuesUntil, Wakes};
ghost use Rattle.ff_mdf_tasks.specs.Sources.{AreReaders};

use crate::queue::Queue;
use crate::readers::Readers;
use crate::task::is_ready;
use ff_mdf::{CheckedProgram, MdfAnswer};
use ff_rec::NoMemory;
use std::alloc::Global;

/// Queues what reads from statement `id` and is ready now.
pub(crate) fn wake(
    program: &CheckedProgram,
    readers: &Readers,
    answers: &[Option<MdfAnswer>],
    id: usize,
    queue: &mut Queue,
) -> Result<(), NoMemory>
    requires readers { AreReaders program.now readers.now }
    requires within { id < length program.now }
    requires size { queue.old.size ≡ length program.now }
    ensures { OnOk result (Wakes program.now (answer_in answers.now) id queue.old queue.new) }
{
    let mut reader = readers.latest[id];
    while let Some(t) = reader {
        queue_ready(program, answers, t / 3, queue)?;
        reader = readers.earlier[t];
    }
    Ok(())
}

/// The statements that are ready before anything is done.
pub(crate) fn first_ready(
    alloc: Global,
    program: &CheckedProgram,
    answers: &[Option<MdfAnswer>],
) -> Result<Queue, NoMemory>
    ensures { IfOk result (QueuesUntil program.now (answer_in answers.now) (length program.now)) }
{
    let count = program.program().as_slice().len();
    let mut queue = Queue::new(alloc, count)?;
    for k in 0..count {
        queue_ready(program, answers, k, &mut queue)?;
    }
    Ok(queue)
}

// Queues statement `k`, where it is ready.
fn queue_ready(
    program: &CheckedProgram,
    answers: &[Option<MdfAnswer>],
    k: usize,
    queue: &mut Queue,
) -> Result<(), NoMemory>
    requires within { k < length program.now }
    requires size { queue.old.size ≡ length program.now }
    ensures { OnOk result
        (QueuesReady program.now (answer_in answers.now) k queue.old queue.new) }
{
    if is_ready(program, answers, k) {
        queue.add(k)?;
    }
    Ok(())
}
