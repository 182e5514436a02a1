// The command `run`, from the text that it is given.
ghost use Rattle.std.specs.Prelude.{◌≡◌, false};
ghost use Rattle.ff_call.specs.Counts.{Counts};
ghost use Rattle.ff_call.specs.Handling.{Handled};
ghost use Rattle.ff_call.specs.Statuses.{IsEarly};
ghost use Rattle.ff_call_run.specs.Running.{RunDone, by_threads};

use crate::run::{Order, run};
use ff_call::{Devices, Fault, Seen, WaitingMachine, read_given};
use ff_engine::{NetJob, NetUnit};
use ff_ops::Op;
use ff_spawn::Spawner;
use ff_words::Given;
use std::alloc::Global;

/// Runs the network of the text that is given. The answer is how many records its nodes rejected.
pub fn run_given<M: WaitingMachine>(
    rt: &M::Wait,
    alloc: Global,
    given: Given,
    order: Order,
    devices: &mut Devices<M>,
) -> Result<u64, Fault>
where
    M::Spawner: Spawner<NetJob<NetUnit<Op>, M::Wait>>,
    ensures handled { let seen = ⟦<Devices<M> as Seen>⟧.outside in
        Handled given (RunDone order.tasks order.way order.rejects)
        (seen devices.old) (seen devices.new) result }
    ensures counts { let seen = ⟦<Devices<M> as Seen>⟧.outside in
        Counts (seen devices.old) (seen devices.new) result }
    ensures input { IsEarly result → devices.new.input ≡ devices.old.input }
    ensures alone { by_threads order.way ≡ false → devices.new.spawner ≡ devices.old.spawner }
    ensures err { devices.new.err ≡ devices.old.err }
{
    match read_given(alloc, &mut devices.files, given) {
        Ok(checked) => run(rt, alloc, checked, order, devices),
        Err(fault) => Err(fault),
    }
}
