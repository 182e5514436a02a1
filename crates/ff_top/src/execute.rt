// From words to what they do.
ghost use Rattle.std.specs.Prelude.{◌≡◌, true, false, IsSomeAnd};
ghost use Rattle.ff_call.specs.Counts.{Counts};
ghost use Rattle.ff_call.specs.Statuses.{IsEarly};
ghost use Rattle.ff_top.specs.Commands.{Works, reads_input, works_alone};
ghost use Rattle.ff_top.specs.Endings.{Comes};
ghost use Rattle.ff_words.specs.Parsed.{texts};
ghost use Rattle.ff_words.specs.Words.{command};

use crate::starts::StartsAll;
use ff_call::{Devices, Fault, Seen, WaitingMachine};
use ff_call_mdf::run_mdf;
use ff_call_print::{Form, print_given};
use ff_call_run::{Order, run_given};
use ff_call_soak::run_soak;
use ff_words::{Command, CommandFault, read_command};
use std::alloc::Global;

/// Does what the words say. The answer is how many records were rejected. Nothing is told of it.
pub fn execute<M: WaitingMachine>(
    rt: &M::Wait,
    alloc: Global,
    words: &[String],
    devices: &mut Devices<M>,
) -> Result<u64, Fault>
where
    M::Spawner: StartsAll<M::Wait>,
    ensures comes { let seen = ⟦<Devices<M> as Seen>⟧.outside in
        Comes (texts words.now) (seen devices.old) (seen devices.new) result }
    ensures counts { let seen = ⟦<Devices<M> as Seen>⟧.outside in
        Counts (seen devices.old) (seen devices.new) result }
    ensures early { IsEarly result → devices.new.input ≡ devices.old.input }
    ensures unread { IsSomeAnd (command (texts words.now)) (λ job. reads_input job ≡ false)
        → devices.new.input ≡ devices.old.input }
    ensures alone { IsSomeAnd (command (texts words.now)) (λ job. works_alone job ≡ true)
        → devices.new.spawner ≡ devices.old.spawner }
    ensures err { devices.new.err ≡ devices.old.err }
{
    match read_command(alloc, words) {
        Ok(job) => work(rt, alloc, job, devices),
        Err(CommandFault::Usage) => Err(Fault::Usage),
        Err(CommandFault::NoMemory) => Err(Fault::NoMemory),
    }
}

// Does what a command says.
fn work<M: WaitingMachine>(
    rt: &M::Wait,
    alloc: Global,
    job: Command,
    devices: &mut Devices<M>,
) -> Result<u64, Fault>
where
    M::Spawner: StartsAll<M::Wait>,
    ensures works { let seen = ⟦<Devices<M> as Seen>⟧.outside in
        Works job (seen devices.old) (seen devices.new) result }
    ensures counts { let seen = ⟦<Devices<M> as Seen>⟧.outside in
        Counts (seen devices.old) (seen devices.new) result }
    ensures early { IsEarly result → devices.new.input ≡ devices.old.input }
    ensures unread { reads_input job ≡ false → devices.new.input ≡ devices.old.input }
    ensures alone { works_alone job ≡ true → devices.new.spawner ≡ devices.old.spawner }
    ensures err { devices.new.err ≡ devices.old.err }
{
    match job {
        Command::Run {
            given,
            cap,
            tasks,
            way,
            rejects,
            ..
        } => {
            let order = Order {
                cap,
                tasks,
                way,
                rejects,
            };
            run_given(rt, alloc, given, order, devices)
        }
        Command::Check { given } => print_given(alloc, given, Form::Network, devices),
        Command::Plan { given } => print_given(alloc, given, Form::Plan, devices),
        Command::Soak {
            n,
            workers,
            cap,
            ..
        } => run_soak(rt, alloc, n, workers, cap, devices),
        Command::Mdf { given, workers } => run_mdf(rt, alloc, given, workers, devices),
        Command::Dc { .. } => Err(Fault::NotBuilt),
    }
}
