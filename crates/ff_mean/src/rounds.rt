// Records that go round.
ghost use Rattle.std.specs.Prelude.{◌≡◌, [], IfOk, OnOk};
ghost use Rattle.ff_node.specs.Behaviour.{node, node_rejected};
ghost use Rattle.ff_node.specs.Sends.{add};
ghost use Rattle.ff_node.specs.declared.class.Class.TheVariants.{Plain};
ghost use Rattle.ff_mean.specs.Gathering.{HasRunRounds};
ghost use Rattle.ff_mean.specs.Rounds.{IsPlainState, HasRunLevel};

use ff_net::{Tasks, Test, sort};
use ff_node::{Node, Records, Sends};
use ff_rec::{NoMemory, Record};
use std::alloc::Global;
use std::mem;

/// What a wrap of this worker gives: its tasks are taken level by level. The answer is `None` as soon as there are more
/// than `limit` tasks. What the worker rejects is added to `out`.
pub(crate) fn run_rounds<W: Node>(
    alloc: Global,
    mut worker: W,
    test: &Test,
    limit: u64,
    input: Records,
    out: &mut Sends,
) -> Result<Option<Records>, NoMemory>
    requires plain { W.does.class worker ≡ Plain }
    requires empty { out.old.sends ≡ [] }
    ensures { IfOk result (λ answer. HasRunRounds (node W.does worker) (node_rejected W.does worker) test.now limit input out.old out.new answer) }
{
    let fed = input.len() as u64;
    if limit < fed {
        return Ok(None);
    }
    worker.svc_init();
    let mut tasks = Tasks {
        next: input,
        room: limit - fed,
        results: Records::new(alloc),
    };
    'levels: while !tasks.next.is_empty() {
        let level = mem::replace(&mut tasks.next, Records::new(alloc));
        if !run_level(&mut worker, test, level, &mut tasks, out)? {
            return Ok(None);
        }
    }
    worker.svc_end();
    Ok(Some(tasks.results))
}

// Hands the tasks of a level to the worker, one after another. The answer is whether there was room for those of the next.
fn run_level<W: Node>(
    worker: &mut W,
    test: &Test,
    mut level: Records,
    tasks: &mut Tasks,
    out: &mut Sends,
) -> Result<bool, NoMemory>
    requires plain { IsPlainState W.does worker.old }
    requires empty { out.old.sends ≡ [] }
    ensures plain { OnOk result (IsPlainState W.does worker.new) }
    ensures kind { OnOk result (W.does.opening worker.new ≡ W.does.opening worker.old) }
    ensures level { IfOk result (λ all. HasRunLevel (W.does.sends (W.does.opening worker.old)) (W.does.rejects (W.does.opening worker.old))
        test.now level tasks.old tasks.new out.old out.new all) }
{
    while let Some(r) = level.take_first() {
        work(worker, r, out)?;
        if !sort(test, tasks, out)? {
            return Ok(false);
        }
    }
    Ok(true)
}

// Hands a record to a Plain node, which does with it what it does in its opening state.
fn work<W: Node>(worker: &mut W, r: Record, out: &mut Sends) -> Result<(), NoMemory>
    requires { IsPlainState W.does worker.old }
    ensures plain { OnOk result (IsPlainState W.does worker.new) }
    ensures kind { OnOk result (W.does.opening worker.new ≡ W.does.opening worker.old) }
    ensures sends { OnOk result (out.new ≡ add out.old (W.does.sends (W.does.opening worker.old) r) (W.does.rejects (W.does.opening worker.old) r)) }
{
    worker.svc(r, out)?;
    Ok(())
}
