// The threads of a network before they are started.
use crate::NetJob;
use crate::board::Board;
use crate::caller::Caller;
use ff_spawn::RunningJobs;
use ff_unit::Threaded;
use std::sync::Wait;

/// The jobs of a network, of which none was started, and all that a run by threads needs besides.
pub(crate) struct Prepared<U: Threaded, R: Wait + Drop> {
    pub(crate) caller: Caller,
    pub(crate) jobs: Vec<NetJob<U, R>>,
    // The places of the jobs' ends.
    pub(crate) board: Board,
    // Room for the units, once their threads have ended.
    pub(crate) units: Vec<U>,
    pub(crate) running: RunningJobs<NetJob<U, R>>,
    // The right to wait.
    pub(crate) rt: R,
}
