// The command `soak`, which runs a network over records that it makes.
ghost use Rattle.std.specs.Prelude.{◌≡◌};
ghost use Rattle.ff_call.specs.Counts.{Counts};
ghost use Rattle.ff_call_soak.specs.Soaking.{Soaked, Soaks, MayHaveRanThreads, told};

use ff_call::{Devices, Fault, Seen, WaitingMachine};
use ff_engine::{NetJob, NetUnit};
use ff_io::{Sink, write_all};
use ff_ops::Op;
use ff_soak::{MOST_RECORDS, MOST_WORKERS, SoakFault, print_summary, soak};
use ff_spawn::Spawner;
use std::alloc::Global;
use std::sync::Wait;

/// Runs a soak and writes its summary. Nothing is read, and no record is rejected.
pub fn run_soak<M: WaitingMachine>(
    rt: &M::Wait,
    alloc: Global,
    n: u64,
    workers: u32,
    cap: u32,
    devices: &mut Devices<M>,
) -> Result<u64, Fault>
where
    M::Spawner: Spawner<NetJob<NetUnit<Op>, M::Wait>>,
    ensures done { let seen = ⟦<Devices<M> as Seen>⟧.outside in
        Soaked n workers (seen devices.old) (seen devices.new) result }
    ensures counts { let seen = ⟦<Devices<M> as Seen>⟧.outside in
        Counts (seen devices.old) (seen devices.new) result }
    ensures input { devices.new.input ≡ devices.old.input }
    ensures err { devices.new.err ≡ devices.old.err }
{
    let Devices { out, spawner, .. } = devices;
    write_soak(rt, alloc, n, workers, cap, out, spawner)
}

// Runs a soak over these devices alone.
fn write_soak<O: Sink, R: Wait + Clone + Drop + Send + 'static, S: Spawner<NetJob<NetUnit<Op>, R>>>(
    rt: &R,
    alloc: Global,
    n: u64,
    workers: u32,
    cap: u32,
    out: &mut O,
    spawner: &mut S,
) -> Result<u64, Fault>
    ensures soaks { Soaks n (O.taken out.old) (O.taken out.new) (O.faults out.old) (O.faults out.new)
        (S.refused spawner.old) (S.refused spawner.new) result }
    ensures threads { MayHaveRanThreads n workers (S.starts spawner.old) (S.starts spawner.new)
        (S.worked spawner.old) (S.worked spawner.new) result }
{
    // The words allow no other numbers. The bounds tell the prover so.
    let n = n.min(MOST_RECORDS);
    let workers = workers.min(MOST_WORKERS).max(1);
    let cap = cap.clamp(1, 4096);
    let summary = match soak(rt, alloc, n, workers, cap, spawner) {
        Ok(summary) => summary,
        Err(fault) => return Err(cause_of(fault)),
    };
    let mut text = Vec::new(alloc);
    print_summary(&summary, &mut text)?;
    match write_all(out, &text) {
        Ok(()) => Ok(0),
        Err(_) => Err(Fault::Write),
    }
}

// The cause by which a call ends whose soak has no summary.
fn cause_of(fault: SoakFault) -> Fault
    ensures { result ≡ told fault }
{
    match fault {
        SoakFault::Refused => Fault::Refused,
        SoakFault::NoMemory => Fault::NoMemory,
    }
}
