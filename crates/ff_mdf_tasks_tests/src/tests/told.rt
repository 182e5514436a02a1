// What is told of a program by threads: what it puts out, and what the spawner counted.
ghost use Rattle.std.specs.Prelude.{◌≤◌};

use ff_mdf::{CheckedProgram, Store, Value, check_program, one_thread, read_program};
use ff_mdf_tasks::{MdfJob, run_program};
use ff_spawn::{Spawner, Threads};
use ff_tasks::LoopFault;
use std::alloc::Global;
use std::process::Abort;
use std::sync::Wait;
use std::test::Fail;
use std::thread;

/// A runtime by which a test runs threads.
pub(super) trait Host: thread::Threads + Wait + Abort + Clone + Drop + Send + 'static {}

impl<R: thread::Threads + Wait + Abort + Clone + Drop + Send + 'static> Host for R {}

/// The program of a text, which keeps all rules.
pub(super) fn checked(alloc: Global, text: &[u8]) -> Result<CheckedProgram, Fail> {
    let Ok(program) = read_program(alloc, text) else {
        return Err(Fail::from("the text was refused"));
    };
    match check_program(alloc, program) {
        Ok(checked) => Ok(checked),
        Err(_) => Err(Fail::from("the program was refused")),
    }
}

// The names and the values of a store.
fn printed(alloc: Global, store: &Store) -> Result<String, Fail> {
    let mut text = String::new(alloc);
    for k in 0..store.len() {
        let name = str::from_utf8(store.name(k).bytes())?;
        let entry = match store.value(k) {
            Value::Num(n) => format!(in alloc; "{name} {n};")?,
            Value::Bad => format!(in alloc; "{name} bad;")?,
        };
        text.push_str(entry.as_str())?;
    }
    Ok(text)
}

/// What a program puts out by so many workers, or why it broke off.
pub(super) fn told<R: Host, P: Spawner<MdfJob<R>>>(
    rt: &R,
    alloc: Global,
    program: &CheckedProgram,
    workers: u32,
    spawner: &mut P,
) -> Result<String, Fail>
    requires some { 1 ≤ workers }
    requires few { workers ≤ 64 }
{
    match run_program(rt, alloc, program, workers, spawner) {
        Ok(store) => printed(alloc, &store),
        Err(LoopFault::Refused) => Ok(String::from_str(alloc, "refused")?),
        Err(LoopFault::NoMemory) => Ok(String::from_str(alloc, "short of memory")?),
    }
}

/// The program puts out what is wanted, on one thread and by 1 to 4 workers. Its tasks, so many, are
/// all done by threads.
pub(super) fn check<R: Host>(
    rt: &R,
    alloc: Global,
    text: &[u8],
    tasks: u64,
    want: &str,
) -> Result<(), Fail> {
    let program = checked(alloc, text)?;
    let alone = printed(alloc, &one_thread(alloc, &program)?)?;
    assert_eq!(rt; alone.as_bytes(), want.as_bytes());
    for workers in 1..5 {
        let mut spawner = Threads::new(rt.clone()?);
        let found = told(rt, alloc, &program, workers, &mut spawner)?;
        let counts = (spawner.starts(), spawner.worked(), spawner.refused());
        let wanted = (u64::from(workers), tasks, 0);
        assert_eq!(rt; (found.as_bytes(), counts), (want.as_bytes(), wanted));
    }
    Ok(())
}

/// Lines of programs, each with how many tasks it has and what it puts out, behind bars; how many
/// there are.
pub(super) fn check_lines<R: Host>(rt: &R, alloc: Global, lines: &str) -> Result<u64, Fail> {
    let mut tried = 0u64;
    for line in lines.lines() {
        if let Some((text, rest)) = line.split_once(" | ") {
            check_line(rt, alloc, text, rest)?;
            tried = tried.saturating_add(1);
        }
    }
    Ok(tried)
}

// A program, with how many tasks it has and what it puts out.
fn check_line<R: Host>(rt: &R, alloc: Global, text: &str, rest: &str) -> Result<(), Fail> {
    let Some((tasks, want)) = rest.split_once(" | ") else {
        return Err(Fail::from("a line lacks a part"));
    };
    check(rt, alloc, text.as_bytes(), tasks.parse::<u64>()?, want)
}
