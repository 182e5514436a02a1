// A stage between two queues.
ghost use Rattle.std.specs.Prelude.{◌≡◌, [], ◌∷◌, IfOk};
ghost use Rattle.ff_rec.specs.Streams.{IsOpen, IsOpenMsg};
ghost use Rattle.ff_port.specs.Queues.{put_of, empty_queue};
ghost use Rattle.ff_unit.specs.Units.{Ran};

use super::{Gate, record};
use ff_port::{End, Inbox, Msg, Outbox, OwnPorts, PlainQueue, Ports, Put, Step};
use ff_rec::Record;
use ff_unit::{Stage, Unit};
use std::alloc::Global;
use std::process::Abort;
use std::test::Fail;

// The two queues of a stage.
type Ends = OwnPorts<PlainQueue<Record>, PlainQueue<Record>, Record>;

// Puts a message that doesn't end a stream.
fn put(q: &mut PlainQueue<Record>, m: Msg<Record>) -> Result<(), Fail>
    requires open { IsOpen (put_of q.old) }
    requires goes_on { IsOpenMsg m }
    ensures open { IsOpen (put_of q.new) }
    ensures got { q.new.got ≡ q.old.got }
{
    match q.try_put(m) {
        Put::Done => Ok(()),
        _ => Err("no room")?,
    }
}

// Puts a record of one field.
fn put_item(alloc: Global, q: &mut PlainQueue<Record>, bytes: &[u8]) -> Result<(), Fail>
    requires open { IsOpen (put_of q.old) }
    ensures open { IsOpen (put_of q.new) }
    ensures got { q.new.got ≡ q.old.got }
{
    put(q, Msg::Item(record(alloc, bytes)?))
}

// Steps until the unit ends, at most a hundred times.
fn run<U: Unit, P: Ports<Record>>(unit: &mut U, ports: &mut P) -> Option<End>
    requires { Ran U.does unit.old (P.gots ports.old) (P.puts ports.old) }
{
    for _ in 0..100 {
        if let Step::Ended(end) = unit.step(ports) {
            return Some(end);
        }
    }
    None
}

// What is inside a queue: items by their text, a mark as `|`, Eos as `.` and Abort as `!`.
fn inside(alloc: Global, q: &mut PlainQueue<Record>) -> Result<String, Fail> {
    let mut text = String::new(alloc);
    for _ in 0..100 {
        match q.try_take() {
            Some(Msg::Item(r)) => text.push_str(str::from_utf8(r.joined())?)?,
            Some(Msg::Mark) => text.push('|')?,
            Some(Msg::Eos) => text.push('.')?,
            Some(Msg::Abort) => text.push('!')?,
            Some(Msg::Pick(_)) => text.push('?')?,
            None => {}
        }
    }
    Ok(text)
}

// An empty queue of four slots.
fn queue(alloc: Global) -> Result<PlainQueue<Record>, Fail>
    ensures { IfOk result (λ q. q ≡ empty_queue 4) }
{
    Ok(PlainQueue::new(alloc, 4)?)
}

// The ends of a stage whose in holds what was put there.
fn ends(alloc: Global, inn: PlainQueue<Record>) -> Result<Ends, Fail>
    requires { inn.got ≡ [] }
    ensures ins { IfOk result (λ ports. ports.ins.items ≡ inn ∷ []) }
    ensures outs { IfOk result (λ ports. ports.outs.items ≡ empty_queue 4 ∷ []) }
{
    let mut ins = Vec::new(alloc);
    ins.push(inn)?;
    let mut outs = Vec::new(alloc);
    outs.push(queue(alloc)?)?;
    Ok(OwnPorts::new(ins, outs))
}

// Puts Eos.
fn put_eos(rt: &impl Abort, q: &mut PlainQueue<Record>)
    requires { IsOpen (put_of q.old) }
    ensures { q.new.got ≡ q.old.got }
{
    match q.try_put(Msg::Eos) {
        Put::Done => {}
        _ => panic!(rt; "no room"),
    }
}

// Puts two records, with a mark between them.
fn put_marked(alloc: Global, q: &mut PlainQueue<Record>) -> Result<(), Fail>
    requires open { IsOpen (put_of q.old) }
    ensures open { IsOpen (put_of q.new) }
    ensures got { q.new.got ≡ q.old.got }
{
    put_item(alloc, q, b"a")?;
    put(q, Msg::Mark)?;
    put_item(alloc, q, b"b")
}

// A queue of two records, with a mark between them and Eos behind.
fn marked(rt: &impl Abort, alloc: Global) -> Result<PlainQueue<Record>, Fail>
    ensures { IfOk result (λ q. q.got ≡ []) }
{
    let mut q = queue(alloc)?;
    put_marked(alloc, &mut q)?;
    put_eos(rt, &mut q);
    Ok(q)
}

// Runs a gate to Eos on this queue: its ends behind that.
fn run_gate(rt: &impl Abort, alloc: Global, inn: PlainQueue<Record>) -> Result<Ends, Fail>
    requires { inn.got ≡ [] }
{
    let mut ports = ends(alloc, inn)?;
    let mut stage = Stage::new(alloc, Gate { shut: false }, false);
    assert!(rt; run(&mut stage, &mut ports) == Some(End::Eos));
    Ok(ports)
}

// Has a gate step on over this queue, until it ends: its ends behind that.
fn step_gate_on(rt: &impl Abort, alloc: Global, inn: PlainQueue<Record>) -> Result<Ends, Fail>
    requires { inn.got ≡ [] }
{
    let mut ports = ends(alloc, inn)?;
    let mut stage = Stage::new(alloc, Gate { shut: false }, false);
    assert_eq!(rt; stage.step_on(&mut ports), Step::Ended(End::Eos));
    Ok(ports)
}

// Tells a gate to abort: its ends behind that.
fn abort_gate(rt: &impl Abort, alloc: Global) -> Result<Ends, Fail> {
    let mut ports = ends(alloc, queue(alloc)?)?;
    let mut stage = Stage::new(alloc, Gate { shut: false }, false);
    stage.abort(&mut ports);
    assert!(rt; stage.end() == Some(End::Abort));
    assert!(rt; stage.step(&mut ports) == Step::Ended(End::Abort));
    Ok(ports)
}

// The out of a stage holds this.
fn expect_out(rt: &impl Abort, alloc: Global, ports: Ends, want: &str) -> Result<(), Fail> {
    let (_, mut outs) = ports.into_ends();
    for out in &mut outs {
        expect_inside(rt, alloc, out, want)?;
    }
    Ok(())
}

fn expect_inside(
    rt: &impl Abort,
    alloc: Global,
    q: &mut PlainQueue<Record>,
    want: &str,
) -> Result<(), Fail> {
    let text = inside(alloc, q)?;
    assert_eq!(rt; text.as_str(), want);
    Ok(())
}

#[test]
fn a_mark_stays_where_it_stands(rt: HostRuntime) -> Result<(), Fail> {
    let inn = marked(&rt, rt.alloc())?;
    let ports = run_gate(&rt, rt.alloc(), inn)?;
    expect_out(&rt, rt.alloc(), ports, "a|b.")?;
    let inn = marked(&rt, rt.alloc())?;
    let ports = step_gate_on(&rt, rt.alloc(), inn)?;
    expect_out(&rt, rt.alloc(), ports, "a|b.")
}

#[test]
fn a_stage_that_is_told_to_abort_puts_abort(rt: HostRuntime) -> Result<(), Fail> {
    let ports = abort_gate(&rt, rt.alloc())?;
    expect_out(&rt, rt.alloc(), ports, "!")
}
