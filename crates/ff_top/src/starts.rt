// What starts the threads of every command.
use ff_engine::{NetJob, NetUnit};
use ff_mdf_tasks::MdfJob;
use ff_ops::Op;
use ff_spawn::Spawner;
use std::sync::Wait;

/// A spawner for the jobs of all commands, which wait by an `R`. Its counts are the same for all.
pub trait StartsAll<R: Wait + Clone + Drop + Send + 'static>: Spawner<NetJob<NetUnit<Op>, R>>
    + Spawner<MdfJob<R>> {}

impl<R, S> StartsAll<R> for S
where
    R: Wait + Clone + Drop + Send + 'static,
    S: Spawner<NetJob<NetUnit<Op>, R>> + Spawner<MdfJob<R>>,
{}
