// What no clause says: that memory is there, so that each call does its work.
ghost use Rattle.std.specs.Prelude.{◌≡◌, ◌<◌, IfOk, OnOk};
ghost use Rattle.ff_loop.specs.Rounds.{IsRound, workers_of};

mod letters;
mod players;
mod workers;
mod wrap_masters;

use ff_loop::Rounds;
use ff_net::Test;
use ff_node::{Cmp, Sends};
use ff_rec::{Field, NoMemory, Record};
use std::alloc::Global;
use std::process::Abort;
use std::test::Fail;

// A record of one field.
fn record(alloc: Global, bytes: &[u8]) -> Result<Record, Fail> {
    let field = Field::new(alloc, bytes)?;
    Ok(Record::one(alloc, &field)?)
}

// An answer of two records.
fn both(alloc: Global, bytes: [&[u8]; 2]) -> Result<Sends, Fail> {
    let mut sends = Sends::new(alloc, false);
    let [first, second] = bytes;
    send(alloc, &mut sends, first)?;
    send(alloc, &mut sends, second)?;
    Ok(sends)
}

fn send(alloc: Global, sends: &mut Sends, bytes: &[u8]) -> Result<(), Fail> {
    sends.send(record(alloc, bytes)?)?;
    Ok(())
}

// The tasks of a wrap with two workers, of which the records above 1 go round. At most two are handed out.
fn two_workers(alloc: Global) -> Result<Rounds, Fail>
    ensures round { IfOk result IsRound }
    ensures two { IfOk result (λ r. workers_of r ≡ 2) }
{
    let test = Test {
        field: 1,
        cmp: Cmp::Gt,
        value: 1,
    };
    Ok(Rounds::new(alloc, test, 2, 2)?)
}

// A task is fed in.
fn feed(alloc: Global, rounds: &mut Rounds, bytes: &[u8]) -> Result<(), Fail>
    requires round { IsRound rounds.old }
    requires two { workers_of rounds.old ≡ 2 }
    ensures round { OnOk result (IsRound rounds.new) }
    ensures two { OnOk result (workers_of rounds.new ≡ 2) }
{
    rounds.feed(record(alloc, bytes)?)?;
    Ok(())
}

// Gives worker `w` a task, and tells whether it is this one.
fn gives(rounds: &mut Rounds, w: u32, bytes: &[u8]) -> Result<bool, NoMemory>
    requires round { IsRound rounds.old }
    requires two { workers_of rounds.old ≡ 2 }
    requires worker { w < 2 }
    ensures round { OnOk result (IsRound rounds.new) }
    ensures two { OnOk result (workers_of rounds.new ≡ 2) }
{
    match rounds.give(w)? {
        Some(t) => Ok(t.joined() == bytes),
        None => Ok(false),
    }
}

// Worker `w` answers the task that it has.
fn answers(rt: &impl Abort, rounds: &mut Rounds, w: u32, answer: Sends) -> Result<(), NoMemory>
    requires round { IsRound rounds.old }
    requires two { workers_of rounds.old ≡ 2 }
    requires worker { w < 2 }
    ensures round { OnOk result (IsRound rounds.new) }
    ensures two { OnOk result (workers_of rounds.new ≡ 2) }
{
    assert!(rt; rounds.out(w) > 0);
    rounds.got(w, answer)
}

// Worker `w` gets this task and answers it.
fn turn(
    rt: &impl Abort,
    alloc: Global,
    rounds: &mut Rounds,
    w: u32,
    bytes: &[u8],
    answer: [&[u8]; 2],
) -> Result<(), Fail>
    requires round { IsRound rounds.old }
    requires two { workers_of rounds.old ≡ 2 }
    requires worker { w < 2 }
    ensures round { OnOk result (IsRound rounds.new) }
    ensures two { OnOk result (workers_of rounds.new ≡ 2) }
{
    let is_it = gives(rounds, w, bytes)?;
    assert!(rt; is_it, "{bytes:?}");
    answers(rt, rounds, w, both(alloc, answer)?)?;
    Ok(())
}

// This result comes out.
fn comes_out(rt: &impl Abort, rounds: &mut Rounds, bytes: &[u8])
    requires { IsRound rounds.old }
    ensures { IsRound rounds.new }
{
    let is_it = match rounds.take_result() {
        Some(r) => r.joined() == bytes,
        None => false,
    };
    assert!(rt; is_it, "{bytes:?}");
}

// A task gives another one and a result, and that one gives two results.
fn spawns(rt: &impl Abort, alloc: Global, rounds: &mut Rounds) -> Result<(), Fail>
    requires round { IsRound rounds.old }
    requires two { workers_of rounds.old ≡ 2 }
    ensures { OnOk result (IsRound rounds.new) }
{
    feed(alloc, rounds, b"3")?;
    turn(rt, alloc, rounds, 1, b"3", [b"2", b"1"])?;
    assert!(rt; !rounds.is_done());
    turn(rt, alloc, rounds, 0, b"2", [b"1", b"0"])?;
    assert!(rt; rounds.is_done() && !rounds.is_over());
    Ok(())
}

// Such tasks, and then the results in the order of their tasks.
fn spawns_and_gives(rt: &impl Abort, alloc: Global, rounds: &mut Rounds) -> Result<(), Fail>
    requires round { IsRound rounds.old }
    requires two { workers_of rounds.old ≡ 2 }
{
    spawns(rt, alloc, rounds)?;
    comes_out(rt, rounds, b"1");
    comes_out(rt, rounds, b"1");
    comes_out(rt, rounds, b"0");
    Ok(())
}

#[test]
fn a_task_spawns_another(rt: HostRuntime) -> Result<(), Fail> {
    let mut rounds = two_workers(rt.alloc())?;
    spawns_and_gives(&rt, rt.alloc(), &mut rounds)
}

// A task gives two more, which is one too many.
fn spawns_too_many(rt: &impl Abort, alloc: Global, rounds: &mut Rounds) -> Result<(), Fail>
    requires round { IsRound rounds.old }
    requires two { workers_of rounds.old ≡ 2 }
{
    feed(alloc, rounds, b"3")?;
    turn(rt, alloc, rounds, 0, b"3", [b"2", b"2"])?;
    assert!(rt; rounds.is_over() && rounds.is_done());
    Ok(())
}

#[test]
fn a_task_too_many_is_seen(rt: HostRuntime) -> Result<(), Fail> {
    let mut rounds = two_workers(rt.alloc())?;
    spawns_too_many(&rt, rt.alloc(), &mut rounds)
}
