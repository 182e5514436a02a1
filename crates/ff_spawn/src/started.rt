// A job that was handed over to a thread, and how it comes back.
ghost use Rattle.std.specs.Prelude.{◌≡◌, ◌<◌, [], IfOk, IfErr};
ghost use Rattle.rtrb.specs.Ring.{sent, known_free, IsPair};
ghost use Rattle.ff_spawn.specs.Starts.{HandsBack};

use crate::runner::{Ended, RunsItem, spawn_runner};
use crate::{Job, StartFault};
use rtrb::{Producer, RingBuffer};
use std::alloc::Global;
use std::marker::Model;
use std::snapshot::Snapshot;
use std::sync::{Arc, Wait};
use std::thread::{Parker, PromisedHandle, Threads};

/// A job that was started. Contracts see it as that job, as it was then. `Spawner::finish` alone spends it.
pub struct Started<J: Job> {
    producer: Producer<J>,
    thread: PromisedHandle<Ended<J>, RunsItem<J>>,
    job: Snapshot<J>,
}

impl<J: Job> Model for Started<J> {
    ghost use Rattle.std.specs.Prelude.{◌≡◌, [], ◌∷◌};
    ghost use Rattle.rtrb.specs.Ring.{sent, IsPair};

    ghost Value = { J };

    ghost view = { λ s. s.job.value };

    ghost invariant = { λ s. (sent s.producer ≡ s.job.value ∷ [])
        × IsPair s.producer s.thread.promise.0.value };
}

impl<J: Job> Started<J> {
    /// Waits until the thread has ended. The two ends tell that its job is the one that was handed over.
    pub(crate) fn join<R: Threads>(self, rt: &R) -> J
        ensures { J.done self result }
    {
        let Started {
            producer,
            thread,
            job: _,
        } = self;
        let mut producer = producer;
        let Ended { consumer, job } = thread.join(rt);
        let mut consumer = consumer;
        consumer.slots_beside(&mut producer);
        job
    }
}

/// Starts a thread, and hands the job over once it is there: from a thread that is refused, nothing comes back that its
/// closure took along.
pub(crate) fn start_thread<J: Job + Send + 'static, H: Threads + Wait + Drop + Send + 'static>(
    starter: &H,
    rt: H,
    alloc: Global,
    job: J,
) -> Result<Started<J>, StartFault<J>>
    ensures job { IfOk result (λ running. running ≡ job) }
    ensures back { IfErr result (HandsBack job) }
{
    let Ok(bell) = Arc::new(alloc, Parker::new()) else {
        return Err(StartFault::NoMemory(job));
    };
    let Ok(ring) = Arc::try_clone(&bell) else {
        return Err(StartFault::NoMemory(job));
    };
    let Ok((producer, consumer)) = RingBuffer::new(alloc, 1) else {
        return Err(StartFault::NoMemory(job));
    };
    let Some(thread) = spawn_runner(starter, rt, bell, consumer) else {
        return Err(StartFault::Refused(job));
    };
    let started = hand_over(producer, thread, job);
    ring.unpark();
    Ok(started)
}

// Hands the job over. A ring that is fresh has room for it.
fn hand_over<J: Job>(
    producer: Producer<J>,
    thread: PromisedHandle<Ended<J>, RunsItem<J>>,
    job: J,
) -> Started<J>
    requires fresh { (sent producer ≡ []) × (0 < known_free producer) }
    requires paired { IsPair producer thread.promise.0.value }
    ensures { result ≡ job }
{
    let mut producer = producer;
    let was = Snapshot::of(&job);
    producer.push_reserved(job);
    Started {
        producer,
        thread,
        job: was,
    }
}
