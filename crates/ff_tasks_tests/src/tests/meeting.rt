// Handlers that wait for one another.
ghost use Rattle.std.specs.Prelude.{◌≡◌, length, IfOk};

use crate::Brood;
use ff_rec::NoMemory;
use ff_spawn::Threads;
use ff_tasks::{Handler, run_loop};
use std::alloc::Global;
use std::hint;
use std::sync::Arc;
use std::sync::atomic::{AtomicBool, Ordering};
use std::test::Fail;

// How often a handler looks whether the other is there.
const TURNS: u32 = 10_000_000;

// Two tasks whose answers make none.
const FIRST: u64 = 1000;

const SECOND: u64 = 2000;

// Which tasks were begun, and which of their handlers met the other.
#[derive(Drop)]
struct Flags {
    first_began: AtomicBool,
    second_began: AtomicBool,
    first_met: AtomicBool,
    second_met: AtomicBool,
}

impl Flags {
    fn new() -> Flags {
        Flags {
            first_began: AtomicBool::new(false),
            second_began: AtomicBool::new(false),
            first_met: AtomicBool::new(false),
            second_met: AtomicBool::new(false),
        }
    }
}

// Answers a task with itself, once the other one was begun.
#[derive(Drop)]
struct Meets {
    flags: Arc<Flags, Global>,
}

// Waits for a flag, and tells whether it came.
fn comes(flag: &AtomicBool) -> bool {
    for _ in 0..TURNS {
        if flag.load(Ordering::SeqCst) {
            return true;
        }
        hint::spin_loop();
    }
    false
}

// Says that a task was begun, and notes whether the other was meanwhile.
fn meet(began: &AtomicBool, other: &AtomicBool, met: &AtomicBool) {
    began.store(true, Ordering::SeqCst);
    met.store(comes(other), Ordering::SeqCst);
}

impl Handler<u64, u64> for Meets {
    ghost answers = { λ _ t. t };

    fn answer(&mut self, t: u64) -> Result<u64, NoMemory> {
        let flags = &*self.flags;
        match t {
            FIRST => meet(&flags.first_began, &flags.second_began, &flags.first_met),
            SECOND => meet(&flags.second_began, &flags.first_began, &flags.second_met),
            _ => {}
        }
        Ok(t)
    }
}

// Two of them.
fn both(alloc: Global, flags: &Arc<Flags, Global>) -> Result<Vec<Meets>, NoMemory>
    ensures { IfOk result (λ ms. length ms.items ≡ 2) }
{
    let first = Meets {
        flags: Arc::try_clone(flags)?,
    };
    let second = Meets {
        flags: Arc::try_clone(flags)?,
    };
    Ok(Vec::from_array(alloc, [first, second])?)
}

#[test]
fn meet_loop(rt: HostRuntime) -> Result<(), Fail> {
    for cap in [1, 64] {
        let flags = Arc::new(rt.alloc(), Flags::new())?;
        let handlers = both(rt.alloc(), &flags)?;
        let brood = Brood::of(rt.alloc(), &[FIRST, SECOND])?;
        let mut spawner = Threads::new(rt.clone()?);
        let answer = run_loop(&rt, rt.alloc(), brood, handlers, cap, &mut spawner);
        assert!(rt; answer.is_ok());
        assert!(rt; flags.first_met.load(Ordering::SeqCst), "{cap} ahead");
        assert!(rt; flags.second_met.load(Ordering::SeqCst), "{cap} ahead");
    }
    Ok(())
}
