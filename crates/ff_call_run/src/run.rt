// The command `run`: a network over the records of the input.
ghost use Rattle.std.specs.Prelude.{◌≡◌, false, Err, MatchBool};
ghost use Rattle.ff_net.specs.Tree.{tree_of};
ghost use Rattle.ff_engine.specs.Runs.{CountsNetInput, net_output_count, refused_count};
ghost use Rattle.ff_call.specs.Counts.{Counts, Files as of_files, count_by, raised};
ghost use Rattle.ff_call.specs.Statuses.{IsEarly};
ghost use Rattle.ff_call.specs.Texts.{version};
ghost use Rattle.ff_call_run.specs.Finishing.{Answered, closing, Finished};
ghost use Rattle.ff_call_run.specs.Running.{CannotSweep, MayRun, RunDone, by_threads, run_job};

use crate::rejects::store_rejects;
use ff_call::{Devices, Fault, Seen, WaitingMachine};
use ff_engine::{Delivery, NetFault, NetJob, NetUnit, run_net};
use ff_io::Files;
use ff_net::Checked;
use ff_ops::Op;
use ff_single::{Ending, RunFault, Stop, run_single};
use ff_spawn::Spawner;
use ff_sweeps::run_swept;
use ff_words::{Text, Way};
use std::alloc::Global;

/// How a network is to be run.
#[derive(Drop)]
pub struct Order {
    /// How many messages a ring between two threads holds.
    pub cap: u32,
    /// The most tasks of a wrap.
    pub tasks: u64,
    pub way: Way,
    /// The file for the rejected records.
    pub rejects: Option<Text>,
}

/// Runs a network. The answer is how many records its nodes rejected.
pub fn run<M: WaitingMachine>(
    rt: &M::Wait,
    alloc: Global,
    checked: Checked<Op>,
    order: Order,
    devices: &mut Devices<M>,
) -> Result<u64, Fault>
where
    M::Spawner: Spawner<NetJob<NetUnit<Op>, M::Wait>>,
    requires { checked.version ≡ version }
    ensures done { let seen = ⟦<Devices<M> as Seen>⟧.outside in
        RunDone order.tasks order.way order.rejects (tree_of checked.net)
        (seen devices.old) (seen devices.new) result }
    ensures counts { let seen = ⟦<Devices<M> as Seen>⟧.outside in
        Counts (seen devices.old) (seen devices.new) result }
    ensures unread { IsEarly result → devices.new.input ≡ devices.old.input }
    ensures alone { by_threads order.way ≡ false → devices.new.spawner ≡ devices.old.spawner }
    ensures err { devices.new.err ≡ devices.old.err }
{
    if !may_run(order.way, &checked) {
        return Err(Fault::NoSweep);
    }
    let answer = answer(rt, alloc, checked, &order, devices);
    finish(alloc, order, &mut devices.files, answer)
}

// Whether a network may be run in this way.
fn may_run(way: Way, checked: &Checked<Op>) -> bool
    ensures { MatchBool result (MayRun way (tree_of checked.now.net))
        (CannotSweep way (tree_of checked.now.net)) }
{
    match way {
        Way::Sweep => checked.sweeps(),
        Way::Threads | Way::One => true,
    }
}

// Runs a network in the way that is asked for.
fn answer<M: WaitingMachine>(
    rt: &M::Wait,
    alloc: Global,
    checked: Checked<Op>,
    order: &Order,
    devices: &mut Devices<M>,
) -> Result<Ending, NetFault>
where
    M::Spawner: Spawner<NetJob<NetUnit<Op>, M::Wait>>,
    requires version { checked.version ≡ version }
    requires may { MayRun order.now.way (tree_of checked.net) }
    ensures ran { let seen = ⟦<Devices<M> as Seen>⟧.outside in
        let job = run_job (tree_of checked.net) order.now.tasks order.now.rejects in
        Answered job (by_threads order.now.way)
        (seen devices.old) (seen devices.new) result }
    ensures input_faults { CountsNetInput (M.Input.faults devices.old.input) (M.Input.faults devices.new.input) result }
    ensures output_faults { M.Out.faults devices.new.out ≡ net_output_count (M.Out.faults devices.old.out) result }
    ensures refusals { M.Spawner.refused devices.new.spawner ≡ refused_count (M.Spawner.refused devices.old.spawner) result }
    ensures unread { result ≡ Err NetFault.Refused → devices.new.input ≡ devices.old.input }
    ensures alone { by_threads order.now.way ≡ false → devices.new.spawner ≡ devices.old.spawner }
    ensures files { devices.new.files ≡ devices.old.files }
    ensures err { devices.new.err ≡ devices.old.err }
{
    let keep = order.rejects.is_some();
    let Devices {
        input,
        out,
        spawner,
        ..
    } = devices;
    // The words allow no other size. The clamp tells the prover so.
    let cap = order.cap.clamp(1, 4096);
    match order.way {
        Way::One => Ok(run_single(alloc, &checked, order.tasks, keep, input, out)?),
        Way::Sweep => Ok(run_swept(alloc, checked, cap, order.tasks, keep, input, out)?),
        Way::Threads => run_net(
            rt,
            alloc,
            &checked,
            cap,
            // No operation waits for another one, and each takes next to no time for a record.
            Delivery::Gathered,
            order.tasks,
            keep,
            input,
            out,
            spawner,
        ),
    }
}

// Stores the rejected records of a run that came to an end, and tells how it ended.
fn finish<F: Files>(
    alloc: Global,
    order: Order,
    files: &mut F,
    answer: Result<Ending, NetFault>,
) -> Result<u64, Fault>
    ensures ends { Finished order.tasks order.rejects answer
        (F.told files.old) (F.told files.new) result }
    ensures counts { F.faults files.new ≡ count_by (raised of_files) (F.faults files.old) result }
{
    match answer {
        Ok(ending) => {
            let rejected = store_rejects(alloc, files, order.rejects, ending.report)?;
            close(ending.stop, rejected)
        }
        Err(NetFault::Refused) => Err(Fault::Refused),
        Err(NetFault::Run(RunFault::Tasks)) => Err(Fault::Tasks(order.tasks)),
        Err(NetFault::Run(RunFault::Write)) => Err(Fault::Write),
        Err(NetFault::Run(RunFault::NoMemory)) => Err(Fault::NoMemory),
    }
}

// How a run ends that stopped reading so.
fn close(stop: Stop, rejected: u64) -> Result<u64, Fault>
    ensures { result ≡ closing stop rejected }
{
    match stop {
        Stop::End => Ok(rejected),
        Stop::Read => Err(Fault::Read(rejected)),
        Stop::Line(fault) => Err(Fault::Line(fault, rejected)),
    }
}
