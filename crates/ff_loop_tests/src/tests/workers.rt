// A worker between two queues.
ghost use Rattle.std.specs.Prelude.{◌≡◌, [], ◌∷◌, map, IfOk, OnOk};
ghost use Rattle.ff_rec.specs.Streams.{IsOpen, IsOpenMsg};
ghost use Rattle.ff_port.specs.Queues.{put_of};
ghost use Rattle.ff_unit.specs.Units.{Ran};

use super::record;
use ff_loop::WrapWorker;
use ff_port::{End, Inbox, Msg, Outbox, OwnPorts, PlainQueue, Ports, Put, Step};
use ff_rec::Record;
use ff_test_nodes::Gate;
use ff_test_ports::QueuePorts;
use ff_unit::Unit;
use std::alloc::Global;
use std::process::Abort;
use std::test::Fail;

// Puts a message that doesn't end a stream.
fn put(q: &mut PlainQueue<Record>, m: Msg<Record>) -> Result<(), Fail>
    requires open { IsOpen (put_of q.old) }
    requires goes_on { IsOpenMsg m }
    ensures open { OnOk result (IsOpen (put_of q.new)) }
    ensures got { OnOk result (q.new.got ≡ q.old.got) }
{
    match q.try_put(m) {
        Put::Done => Ok(()),
        _ => Err("no room")?,
    }
}

// Steps until the unit ends.
pub(super) fn run<U: Unit, P: Ports<Record>>(unit: &mut U, ports: &mut P) -> Option<End>
    requires { Ran U.does unit.old (P.gots ports.old) (P.puts ports.old) }
{
    for _ in 0..10_000 {
        if let Step::Ended(end) = unit.step(ports) {
            return Some(end);
        }
    }
    None
}

// What is inside a queue: items by their text, a Mark as `|`, and Eos as `.`.
fn inside(alloc: Global, q: &mut PlainQueue<Record>) -> Result<String, Fail> {
    let mut text = String::new(alloc);
    for _ in 0..100 {
        match q.try_take() {
            Some(Msg::Item(r)) => text.push_str(str::from_utf8(r.joined())?)?,
            Some(Msg::Mark) => text.push('|')?,
            Some(Msg::Eos) => text.push('.')?,
            Some(_) => text.push('?')?,
            None => {}
        }
    }
    Ok(text)
}

// Puts a record.
fn put_record(alloc: Global, q: &mut PlainQueue<Record>, bytes: &[u8]) -> Result<(), Fail>
    requires { IsOpen (put_of q.old) }
    ensures open { OnOk result (IsOpen (put_of q.new)) }
    ensures got { OnOk result (q.new.got ≡ q.old.got) }
{
    put(q, Msg::Item(record(alloc, bytes)?))
}

// Puts the records a and b, and Eos.
fn feed(rt: &impl Abort, alloc: Global, q: &mut PlainQueue<Record>) -> Result<(), Fail>
    requires { IsOpen (put_of q.old) }
    ensures { OnOk result (q.new.got ≡ q.old.got) }
{
    put_record(alloc, q, b"a")?;
    put_record(alloc, q, b"b")?;
    assert!(rt; matches!(q.try_put(Msg::Eos), Put::Done), "no room");
    Ok(())
}

// A queue that was fed.
fn fed(rt: &impl Abort, alloc: Global) -> Result<PlainQueue<Record>, Fail>
    ensures { IfOk result (λ q. q.got ≡ []) }
{
    let mut q = PlainQueue::new(alloc, 4)?;
    feed(rt, alloc, &mut q)?;
    Ok(q)
}

// The ports of a worker whose in was fed.
fn fed_ports(rt: &impl Abort, alloc: Global) -> Result<QueuePorts, Fail>
    ensures gots { IfOk result (λ p. map (λ q. q.got) p.ins.items ≡ [] ∷ []) }
    ensures puts { IfOk result (λ p. map (λ q. put_of q) p.outs.items ≡ [] ∷ []) }
{
    let ins = Vec::from_array(alloc, [fed(rt, alloc)?])?;
    let outs = Vec::from_array(alloc, [PlainQueue::new(alloc, 8)?])?;
    Ok(OwnPorts::new(ins, outs))
}

// How a worker ends.
fn worked(alloc: Global, ports: &mut QueuePorts) -> Option<End>
    requires gots { map (λ q. q.got) ports.old.ins.items ≡ [] ∷ [] }
    requires puts { map (λ q. put_of q) ports.old.outs.items ≡ [] ∷ [] }
{
    let mut worker = WrapWorker::new(alloc, Gate, false);
    run(&mut worker, ports)
}

// A worker ends by Eos.
fn works(rt: &impl Abort, alloc: Global, ports: &mut QueuePorts)
    requires gots { map (λ q. q.got) ports.old.ins.items ≡ [] ∷ [] }
    requires puts { map (λ q. put_of q) ports.old.outs.items ≡ [] ∷ [] }
{
    let end = worked(alloc, ports);
    assert_eq!(rt; end, Some(End::Eos));
}

// This is inside of a queue.
fn holds(
    rt: &impl Abort,
    alloc: Global,
    q: &mut PlainQueue<Record>,
    wanted: &str,
) -> Result<(), Fail> {
    assert_eq!(rt; inside(alloc, q)?.as_str(), wanted);
    Ok(())
}

#[test]
fn a_mark_stands_behind_each_answer(rt: HostRuntime) -> Result<(), Fail> {
    let mut ports = fed_ports(&rt, rt.alloc())?;
    works(&rt, rt.alloc(), &mut ports);
    let (_, mut outs) = ports.into_ends();
    for out in &mut outs {
        holds(&rt, rt.alloc(), out, "a|b|.")?;
    }
    Ok(())
}
