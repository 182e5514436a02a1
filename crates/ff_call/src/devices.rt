// What a call reads and writes.
use crate::machine::Machine;
use ff_io::{Files, Sink, Source};
use ff_spawn::Refusals;

/// The devices of a call: `err` takes its messages, and `spawner` starts its threads.
#[derive(Drop)]
pub struct Devices<M: Machine> {
    pub files: M::Files,
    pub input: M::Input,
    pub out: M::Out,
    pub err: M::Err,
    pub spawner: M::Spawner,
}

/// What contracts see of devices: the files, the input, the output and the counts of threads, and the same with the messages.
pub trait Seen {
    ghost use Rattle.ff_call.specs.Outside.{Outside, World};

    ghost outside: { Self → Outside };

    ghost world: { Self → World };
}

impl<M: Machine> Seen for Devices<M> {
    ghost use Rattle.ff_call.specs.Outside.{outside_of};

    ghost outside = { λ d. outside_of M.Files.told M.Files.faults M.Input.left M.Input.ended M.Input.faults
        M.Out.taken M.Out.faults M.Spawner.refused M.Spawner.starts M.Spawner.worked d.files d.input d.out d.spawner };

    ghost world = { λ d. record {
      outside = outside_of M.Files.told M.Files.faults M.Input.left M.Input.ended M.Input.faults
          M.Out.taken M.Out.faults M.Spawner.refused M.Spawner.starts M.Spawner.worked d.files d.input d.out d.spawner;
      said = M.Err.taken d.err;
      err_faults = M.Err.faults d.err;
    } };
}
