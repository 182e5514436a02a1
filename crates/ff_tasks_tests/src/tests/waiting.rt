// Threads that have nothing to do while a handler is slow.
ghost use Rattle.std.specs.Prelude.{◌≡◌, length, IfOk};

use crate::Brood;
use ff_rec::NoMemory;
use ff_spawn::Threads;
use ff_tasks::{Handler, run_loop};
use std::alloc::Global;
use std::test::Fail;
use std::thread;
use std::time::{Clock, CpuClock, Duration};

// Answers a task with itself, a second later.
#[derive(Drop)]
struct Sleeps<R> {
    rt: R,
}

impl<R: Clock + Drop> Handler<u64, u64> for Sleeps<R> {
    ghost answers = { λ _ t. t };

    fn answer(&mut self, t: u64) -> Result<u64, NoMemory> {
        thread::sleep(&self.rt, Duration::from_secs(1));
        Ok(t)
    }
}

// Four of them.
fn four<R: Clone>(alloc: Global, rt: &R) -> Result<Vec<Sleeps<R>>, NoMemory>
    ensures { IfOk result (λ hs. length hs.items ≡ 4) }
{
    let mut handlers = Vec::new(alloc);
    for _ in 0..4u32 {
        handlers.push(Sleeps { rt: rt.clone()? })?;
    }
    Ok(handlers)
}

// Three workers and the calling thread wait for a second, and use next to no processor time meanwhile.
#[test]
fn who_waits_sleeps(rt: HostRuntime) -> Result<(), Fail> {
    let handlers = four(rt.alloc(), &rt)?;
    let brood = Brood::of(rt.alloc(), &[1000])?;
    let mut spawner = Threads::new(rt.clone()?);
    let before = rt.process_cpu_time()?;
    let answer = run_loop(&rt, rt.alloc(), brood, handlers, 64, &mut spawner);
    let used = rt.process_cpu_time()?.saturating_sub(before);
    assert!(rt; answer.is_ok());
    assert!(rt; used < Duration::from_millis(100), "{used:?}");
    Ok(())
}
