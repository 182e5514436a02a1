// A soak: the network over its records, by threads.
ghost use Rattle.std.specs.Prelude.{◌≡◌, ◌≢◌, ◌≤◌, ◌+◌, ℕ, IfOk, OnOk};
ghost use Rattle.ff_net.specs.Counts.{units};
ghost use Rattle.ff_spawn.specs.Counts.{RoseBy};
ghost use Rattle.ff_soak.specs.Faults.{cause_of, refused_count};
ghost use Rattle.ff_soak.specs.Networks.{soak_answer, soak_net};
ghost use Rattle.ff_soak.specs.Summaries.{summary_of};

use crate::line::MOST_RECORDS;
use crate::network::{MOST_WORKERS, soak_network};
use crate::sink::HeldSink;
use crate::source::SoakSource;
use crate::tally::summarize;
use crate::{SoakFault, Summary};
use ff_engine::{Delivery, NetFault, NetJob, NetUnit, run_net};
use ff_ops::Op;
use ff_spawn::Spawner;
use ff_stream::RunFault;
use std::alloc::Global;
use std::sync::Wait;

// The network has no feedback, and so no tasks.
const NO_TASKS: u64 = 0;

/// Runs `pipe(farm W rr (mul 2 3), a2a W (id) by 1 W (totalby 1 2))` by threads over the first `n` records, and tells what
/// it sends. The summary doesn't depend on the number of workers. Each ring between two threads holds about `cap` messages.
pub fn soak<R: Wait + Clone + Drop + Send + 'static, S: Spawner<NetJob<NetUnit<Op>, R>>>(
    rt: &R,
    alloc: Global,
    n: u64,
    workers: u32,
    cap: u32,
    spawner: &mut S,
) -> Result<Summary, SoakFault>
    requires records { n ≤ MOST_RECORDS }
    requires some { 1 ≤ workers }
    requires few { workers ≤ MOST_WORKERS }
    requires low { 1 ≤ cap }
    requires high { cap ≤ 4096 }
    ensures summary { IfOk result (λ summary. (limit w : ℕ)
        → summary ≡ summary_of n (soak_answer limit w n)) }
    ensures starts { OnOk result (RoseBy (units (soak_net workers))
        (S.starts spawner.old) (S.starts spawner.new)) }
    ensures work { OnOk result (RoseBy (units (soak_net workers) + n)
        (S.worked spawner.old) (S.worked spawner.new)) }
    ensures refusals { S.refused spawner.new ≡ refused_count (S.refused spawner.old) result }
{
    let checked = soak_network(alloc, workers)?;
    let mut source = SoakSource::new(alloc, n)?;
    let mut sink = HeldSink::new(alloc);
    let answer = run_net(
        rt,
        alloc,
        &checked,
        cap,
        Delivery::Gathered,
        NO_TASKS,
        false,
        &mut source,
        &mut sink,
        spawner,
    );
    match answer {
        Ok(_) => Ok(summarize(n, sink.taken())),
        Err(fault) => Err(told(fault)),
    }
}

// What a fault of the run is told as. The sink fails where memory is wanting alone, and no wrap has tasks.
fn told(fault: NetFault) -> SoakFault
    requires { fault ≢ NetFault.Run RunFault.Tasks }
    ensures { result ≡ cause_of fault }
{
    match fault {
        NetFault::Refused => SoakFault::Refused,
        NetFault::Run(RunFault::Write | RunFault::NoMemory) => SoakFault::NoMemory,
        NetFault::Run(RunFault::Tasks) => unreachable!(),
    }
}
