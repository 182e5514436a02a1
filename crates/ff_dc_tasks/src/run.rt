// Divide and conquer by threads: the call.
ghost use Rattle.std.specs.Prelude.{◌≡◌, ◌+◌, ◌≤◌, length, IfOk, OnOk};
ghost use Rattle.ff_spawn.specs.Counts.{RoseBy};
ghost use Rattle.ff_dc.specs.declared.rule.DcRule.TheVariants.{Fib};
ghost use Rattle.ff_dc.specs.Rules.{value};
ghost use Rattle.ff_dc.specs.Dividing.{IsPart};
ghost use Rattle.ff_dc.specs.Divisions.{division, part_count};
ghost use Rattle.ff_tasks.specs.Faults.{refused_count};

use crate::handler::handlers_for;
use crate::{DcHandler, DcTask, Divider, RuleFunctions};
use ff_dc::{Four, Numbers, Part};
use ff_spawn::Spawner;
use ff_tasks::{LoopFault, LoopJob, run_loop};
use std::alloc::Global;
use std::sync::Wait;

/// How many tasks a worker has at a time: enough that it needn't wait for the next one.
const TASKS_AHEAD: u32 = 64;

/// The values of a part of the numbers, by the functions of a rule. Parts of more than `cut` places
/// are divided, and so many workers answer their tasks, each in a thread of its own. Threads wait
/// by `rt`. After a fault all threads that were started are joined.
pub fn run_dc<
    F: RuleFunctions + Copy + Send + 'static,
    R: Wait + Clone + Drop + Send + 'static,
    P: Spawner<LoopJob<DcTask, Four, DcHandler<F>, R>>,
>(
    rt: &R,
    alloc: Global,
    functions: F,
    numbers: &Numbers,
    part: Part,
    cut: u32,
    workers: u32,
    spawner: &mut P,
) -> Result<Four, LoopFault>
    requires cut_low { 1 ≤ cut }
    requires cut_high { cut ≤ 1000000 }
    requires some { 1 ≤ workers }
    requires few { workers ≤ 64 }
    requires numbers { length numbers.now ≤ 262144 }
    requires part { IsPart (F.rule functions) numbers.now part }
    requires near { F.rule functions ≡ Fib → part.1 ≤ cut + 24 }
    ensures value { IfOk result (λ v. v ≡ value (F.rule functions) numbers.now part) }
    ensures starts { OnOk result (RoseBy workers (P.starts spawner.old) (P.starts spawner.new)) }
    ensures worked { OnOk result (RoseBy (part_count (division (F.rule functions) cut part))
        (P.worked spawner.old) (P.worked spawner.new)) }
    ensures refusals { P.refused spawner.new ≡ refused_count (P.refused spawner.old) result }
    ensures starts_stays { P.starts spawner.old ≤ P.starts spawner.new }
    ensures worked_stays { P.worked spawner.old ≤ P.worked spawner.new }
{
    let divider = Divider::new(alloc, functions, part, cut)?;
    let handlers = handlers_for(alloc, functions, numbers, workers)?;
    let divider = run_loop(rt, alloc, divider, handlers, TASKS_AHEAD, spawner)?;
    let _numbers = numbers.as_slice();
    Ok(divider.values())
}
