// What no clause says: that the calls do their work while memory is there, and that the clauses mean these messages.
ghost use Rattle.std.specs.Prelude.{◌≡◌, OnOk};
ghost use Rattle.ff_rec.specs.Streams.{IsOpen};
ghost use Rattle.ff_port.specs.Queues.{put_of};

use ff_port::{Inbox, Msg, Outbox, OwnPorts, PlainQueue, Ports, Put};
use ff_rec::NoMemory;
use std::test::Fail;

// A piece of work, which can't be copied.
#[derive(Debug, Drop)]
struct Token {
    number: u64,
}

// Puts the item of this number, and tells whether there was room.
#[tactic(auto, using(crate::proofs::Openings::open_put))]
fn puts(q: &mut PlainQueue<Token>, number: u64) -> Result<bool, NoMemory>
    requires { IsOpen (put_of q.old) }
    ensures open { OnOk result (IsOpen (put_of q.new)) }
    ensures got { OnOk result (q.new.got ≡ q.old.got) }
{
    match q.try_put(Msg::Item(Token { number })) {
        Put::Done => Ok(true),
        Put::Full(_) => Ok(false),
        Put::NoMemory(_) => Err(NoMemory),
    }
}

// Takes a message, and tells the number of its item.
#[tactic(auto, using(crate::proofs::Openings::open_take))]
fn takes(q: &mut PlainQueue<Token>) -> Option<u64>
    requires { IsOpen (put_of q.old) }
    ensures { IsOpen (put_of q.new) }
{
    match q.try_take() {
        Some(Msg::Item(token)) => Some(token.number),
        _ => None,
    }
}

#[test]
fn one_slot(rt: HostRuntime) -> Result<(), Fail> {
    let mut q = PlainQueue::new(rt.alloc(), 1)?;
    assert_eq!(rt; takes(&mut q), None);
    for number in 0..20 {
        assert!(rt; q.is_empty());
        assert!(rt; puts(&mut q, number)?);
        assert!(rt; q.is_full());
        assert!(rt; !puts(&mut q, 99)?);
        assert_eq!(rt; takes(&mut q), Some(number));
        assert_eq!(rt; takes(&mut q), None);
    }
    Ok(())
}

#[test]
fn three_slots_in_order(rt: HostRuntime) -> Result<(), Fail> {
    let mut q = PlainQueue::new(rt.alloc(), 3)?;
    for number in [1, 2, 3] {
        assert!(rt; puts(&mut q, number)?);
    }
    assert!(rt; !puts(&mut q, 4)?);
    assert_eq!(rt; takes(&mut q), Some(1));
    assert!(rt; puts(&mut q, 4)?);
    assert_eq!(rt; q.len(), 3);
    for number in [2, 3, 4] {
        assert_eq!(rt; takes(&mut q), Some(number));
    }
    assert_eq!(rt; takes(&mut q), None);
    Ok(())
}

#[test]
fn the_end_comes_last(rt: HostRuntime) -> Result<(), Fail> {
    let mut q: PlainQueue<Token> = PlainQueue::new(rt.alloc(), 2)?;
    assert!(rt; q.flush());
    assert!(rt; puts(&mut q, 7)?);
    assert!(rt; matches!(q.try_put(Msg::Eos), Put::Done));
    assert!(rt; q.is_full());
    assert!(rt; matches!(q.try_take(), Some(Msg::Item(_))));
    assert!(rt; matches!(q.try_take(), Some(Msg::Eos)));
    assert!(rt; q.try_take().is_none());
    Ok(())
}

#[test]
fn a_full_queue_hands_the_end_back(rt: HostRuntime) -> Result<(), Fail> {
    let mut q: PlainQueue<Token> = PlainQueue::new(rt.alloc(), 1)?;
    assert!(rt; puts(&mut q, 7)?);
    assert!(rt; matches!(q.try_put(Msg::Abort), Put::Full(Msg::Abort)));
    assert_eq!(rt; q.len(), 1);
    Ok(())
}

#[test]
fn ports_act_at_the_end_that_is_named(rt: HostRuntime) -> Result<(), Fail> {
    let mut first = PlainQueue::new(rt.alloc(), 2)?;
    let mut second = PlainQueue::new(rt.alloc(), 2)?;
    assert!(rt; puts(&mut first, 1)?);
    assert!(rt; puts(&mut second, 2)?);
    let ins = Vec::from_array(rt.alloc(), [first, second])?;
    let out: PlainQueue<Token> = PlainQueue::new(rt.alloc(), 1)?;
    let outs = Vec::from_array(rt.alloc(), [out])?;
    let mut ports = OwnPorts::new(ins, outs);
    assert_eq!(rt; ports.ins(), 2);
    assert_eq!(rt; ports.outs(), 1);
    assert_eq!(rt; ports.taken(), 0);
    assert!(rt; matches!(ports.try_take(1), Some(Msg::Item(Token { number: 2 }))));
    assert!(rt; ports.try_take(1).is_none());
    assert_eq!(rt; ports.taken(), 1);
    assert!(rt; matches!(ports.try_put(0, Msg::Eos), Put::Done));
    assert!(rt; ports.flush());
    assert!(rt; matches!(ports.try_take(0), Some(Msg::Item(Token { number: 1 }))));
    assert_eq!(rt; ports.taken(), 2);
    Ok(())
}
