// A master between queues, whose workers the test plays.
ghost use Rattle.std.specs.Prelude.{◌≡◌, ◌≤◌, [], suc, replicate, IfOk};
ghost use Rattle.ff_unit.specs.Units.{Ran};
ghost use Rattle.ff_loop.specs.WrapMasters.{wrap_does};

mod ends;
mod rounds;

use super::players::Players;
use super::workers::run;
use ff_loop::WrapMaster;
use ff_net::Test;
use ff_node::Cmp;
use ff_port::End;
use ff_rec::NoMemory;
use ff_test_ports::Fickle;
use std::alloc::Global;
use std::process::Abort;
use std::test::Fail;

// How many orders each case is tried under.
const ORDERS: u32 = 400;

// What comes to a master, and what its workers answer.
#[derive(Clone, Copy)]
struct Case {
    workers: u32,
    limit: u64,
    fed: &'static str,
    answers: &'static str,
}

// What it put, how it ended, and whether there were too many tasks.
#[derive(Drop)]
struct Played {
    put: String,
    end: Option<End>,
    over: bool,
}

// The ports of a master. Memory is there for so many puts.
fn ports_of(alloc: Global, case: Case, seed: u32, memory: u32) -> Result<Fickle<Players>, Fail>
    requires { case.workers ≤ 64 }
    ensures gots { IfOk result (λ p. p.ports.got.items ≡ replicate (suc case.workers) []) }
    ensures puts { IfOk result (λ p. p.ports.put.items ≡ replicate (suc case.workers) []) }
{
    let players = Players::new(alloc, case.fed, case.workers as usize, case.answers)?;
    let mut ports = Fickle::new(players, seed);
    ports.set_memory(memory);
    Ok(ports)
}

// How a master ends, and whether there were too many tasks.
fn ran(master: &mut WrapMaster, ports: &mut Fickle<Players>) -> (Option<End>, bool)
    requires { Ran wrap_does master.old ports.old.ports.got.items ports.old.ports.put.items }
{
    let end = run(master, ports);
    (end, master.over())
}

// A master of which the records above 0 go round: how it ends, and whether there were too many tasks.
fn ended(
    alloc: Global,
    case: Case,
    ports: &mut Fickle<Players>,
) -> Result<(Option<End>, bool), NoMemory>
    requires some { 1 ≤ case.workers }
    requires few { case.workers ≤ 64 }
    requires gots { ports.old.ports.got.items ≡ replicate (suc case.workers) [] }
    requires puts { ports.old.ports.put.items ≡ replicate (suc case.workers) [] }
{
    let test = Test {
        field: 1,
        cmp: Cmp::Gt,
        value: 0,
    };
    match WrapMaster::new(alloc, test, case.limit, case.workers) {
        Ok(mut master) => Ok(ran(&mut master, ports)),
        Err(no_memory) => Err(no_memory),
    }
}

// What such a master puts, and how it ends.
fn play(alloc: Global, case: Case, seed: u32, memory: u32) -> Result<Played, Fail>
    requires some { 1 ≤ case.workers }
    requires few { case.workers ≤ 64 }
{
    let mut ports = ports_of(alloc, case, seed, memory)?;
    let (end, over) = ended(alloc, case, &mut ports)?;
    let put = ports.into_inner().scripts()?;
    Ok(Played { put, end, over })
}

// Under one order a master puts one of these and ends so. What it put is handed on.
fn puts_one(
    rt: &impl Abort,
    alloc: Global,
    case: Case,
    wanted: &[&str],
    want: (End, bool),
    seed: u32,
) -> Result<String, Fail>
    requires some { 1 ≤ case.workers }
    requires few { case.workers ≤ 64 }
{
    let played = play(alloc, case, seed, u32::MAX)?;
    ends_so(rt, case, seed, &played, want);
    let Played { put, .. } = played;
    let is_one = wanted.iter().any(|one| *one == put.as_str());
    assert!(rt; is_one, "{} {} {seed}: {put}", case.fed, case.answers);
    Ok(put)
}

// It ended so, and there were too many tasks or not.
fn ends_so(rt: &impl Abort, case: Case, seed: u32, played: &Played, want: (End, bool)) {
    let (end, over) = want;
    assert_eq!(rt;
        (played.end, played.over),
        (Some(end), over),
        "{} {} {seed}: {}",
        case.fed,
        case.answers,
        played.put
    );
}

// Each of these was put under some order.
fn each_came(rt: &impl Abort, case: Case, came: &[String], wanted: &[&str]) {
    for one in wanted {
        let came = came.iter().any(|put| put.as_str() == *one);
        assert!(rt; came, "{} {}: never {one}", case.fed, case.answers);
    }
}

// What a master puts under all orders is one of these, and each of these comes under some order.
fn puts(
    rt: &impl Abort,
    alloc: Global,
    case: Case,
    wanted: &[&str],
    want: (End, bool),
) -> Result<(), Fail>
    requires some { 1 ≤ case.workers }
    requires few { case.workers ≤ 64 }
{
    let mut came = Vec::new(alloc);
    for seed in 1..=ORDERS {
        came.push(puts_one(rt, alloc, case, wanted, want, seed)?)?;
    }
    each_came(rt, case, &came, wanted);
    Ok(())
}
