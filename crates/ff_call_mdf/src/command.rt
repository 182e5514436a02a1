// The command `mdf`.
ghost use Rattle.std.specs.Prelude.{◌≡◌};
ghost use Rattle.ff_call.specs.Counts.{Counts};
ghost use Rattle.ff_call_mdf.specs.Computing.{Computed, MayHaveWorked, MdfDone, WritesStore, told};

use crate::{print_store, read_given_program};
use ff_call::{Devices, Fault, Seen, WaitingMachine};
use ff_io::{Sink, write_all};
use ff_mdf::CheckedProgram;
use ff_mdf_tasks::{MdfJob, run_program};
use ff_spawn::Spawner;
use ff_tasks::LoopFault;
use ff_words::Given;
use std::alloc::Global;
use std::sync::Wait;

/// The most workers of a command.
const MOST_WORKERS: u32 = 64;

/// Does the tasks of the program that is given, by so many worker threads, and writes what it puts
/// out once all are done. The input isn't read, and no record is rejected.
pub fn run_mdf<M: WaitingMachine>(
    rt: &M::Wait,
    alloc: Global,
    given: Given,
    workers: u32,
    devices: &mut Devices<M>,
) -> Result<u64, Fault>
where
    M::Spawner: Spawner<MdfJob<M::Wait>>,
    ensures done { let seen = ⟦<Devices<M> as Seen>⟧.outside in
        MdfDone given workers (seen devices.old) (seen devices.new) result }
    ensures counts { let seen = ⟦<Devices<M> as Seen>⟧.outside in
        Counts (seen devices.old) (seen devices.new) result }
    ensures input { devices.new.input ≡ devices.old.input }
    ensures err { devices.new.err ≡ devices.old.err }
{
    match read_given_program(alloc, &mut devices.files, given) {
        Ok(program) => {
            let Devices { out, spawner, .. } = devices;
            write_results(rt, alloc, &program, workers, out, spawner)
        }
        Err(fault) => Err(fault),
    }
}

// Does the tasks of a program, and writes what it puts out.
fn write_results<O: Sink, R: Wait + Clone + Drop + Send + 'static, S: Spawner<MdfJob<R>>>(
    rt: &R,
    alloc: Global,
    program: &CheckedProgram,
    workers: u32,
    out: &mut O,
    spawner: &mut S,
) -> Result<u64, Fault>
    ensures writes { WritesStore program.now (O.taken out.old) (O.taken out.new)
        (O.faults out.old) (O.faults out.new)
        (S.refused spawner.old) (S.refused spawner.new) result }
    ensures threads { MayHaveWorked program.now workers (S.starts spawner.old)
        (S.starts spawner.new) (S.worked spawner.old) (S.worked spawner.new) result }
{
    // The words allow no other number. The bounds tell the prover so.
    let workers = workers.min(MOST_WORKERS).max(1);
    let store = match run_program(rt, alloc, program, workers, spawner) {
        Ok(store) => store,
        Err(fault) => return Err(cause_of(fault)),
    };
    let mut text = Vec::new(alloc);
    print_store(&store, &mut text)?;
    match write_all(out, &text) {
        Ok(()) => Ok(0),
        Err(_) => Err(Fault::Write),
    }
}

// The cause by which a call ends whose tasks weren't done.
fn cause_of(fault: LoopFault) -> Fault
    ensures { result ≡ told fault }
{
    match fault {
        LoopFault::Refused => Fault::Refused,
        LoopFault::NoMemory => Fault::NoMemory,
    }
}
