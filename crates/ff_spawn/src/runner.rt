// What a thread does: it takes one job from a ring, and runs it.
ghost use Rattle.std.specs.Prelude.{◌≡◌, [], ◌∷◌, ◌++◌, IfSome};
ghost use Rattle.rtrb.specs.Ring.{received, SameConsumer};
ghost use Rattle.ff_spawn.specs.Runs.{RanOne};

use crate::Job;
use rtrb::Consumer;
use std::snapshot::Snapshot;
use std::sync::{Arc, Wait};
use std::thread;
use std::thread::{Parker, Promise, PromisedHandle, Threads};

// What a thread gives back: the end at which it took its job, and the job after its run.
#[derive(Drop)]
pub(crate) struct Ended<J> {
    pub(crate) consumer: Consumer<J>,
    pub(crate) job: J,
}

// The thread runs the one job that it takes at this end.
#[derive(Drop)]
pub(crate) struct RunsItem<J>(pub(crate) Snapshot<Consumer<J>>);

impl<J: Job> Promise<Ended<J>> for RunsItem<J> {
    ghost kept_by = { λ p r. SameConsumer p.0.value r.consumer
        × RanOne J.done (received r.consumer) r.job };
}

/// Starts a thread that takes a job at this end and runs it. The bell is to be rung once the job is there.
pub(crate) fn spawn_runner<J: Job + Send + 'static, H: Threads + Wait + Drop + Send + 'static>(
    starter: &H,
    rt: H,
    bell: Arc<Parker>,
    consumer: Consumer<J>,
) -> Option<PromisedHandle<Ended<J>, RunsItem<J>>>
    requires { received consumer ≡ [] }
    ensures { IfSome result (λ thread. thread.promise.0.value ≡ consumer) }
{
    let promise = RunsItem(Snapshot::of(&consumer));
    let body = move || -> Ended<J>
        requires { received consumer ≡ [] }
        ensures same { SameConsumer consumer result.consumer }
        ensures ran { RanOne J.done (received result.consumer) result.job }
    { run_received(&rt, &bell, consumer) };
    thread::spawn_with(starter, promise, body).ok()
}

// Runs the job that comes.
fn run_received<J: Job, R: Wait>(rt: &R, bell: &Parker, consumer: Consumer<J>) -> Ended<J>
    requires { received consumer ≡ [] }
    ensures same { SameConsumer consumer result.consumer }
    ensures ran { RanOne J.done (received result.consumer) result.job }
{
    let mut consumer = consumer;
    let mut job = receive(rt, bell, &mut consumer);
    job.run();
    Ended { consumer, job }
}

// Waits for the next item, for which the bell is rung.
fn receive<J, R: Wait>(rt: &R, bell: &Parker, consumer: &mut Consumer<J>) -> J
    ensures same { SameConsumer consumer.old consumer.new }
    ensures received { received consumer.new ≡ received consumer.old ++ result ∷ [] }
{
    for _ in rt.forever() {
        if let Ok(item) = consumer.pop() {
            return item;
        }
        bell.park(rt);
    }
    unreachable!()
}
