// What no clause says: that memory is there, so that each call does its work.
mod comb;
mod rec_calls;

use ff_node::Sends;
use ff_rec::{Field, Kept, Record};
use std::alloc::Global;
use std::process::Abort;
use std::test::Fail;

fn record(alloc: Global, bytes: &[u8]) -> Result<Record, Fail> {
    let field = Field::new(alloc, bytes)?;
    Ok(Record::one(alloc, &field)?)
}

// Whether a record is there, and is the one of this field.
fn shows(r: Option<&Record>, bytes: &[u8]) -> bool {
    match r {
        Some(r) => r.joined() == bytes,
        None => false,
    }
}

fn add(alloc: Global, out: &mut Sends, name: &[u8]) -> Result<(), Fail> {
    out.send(record(alloc, name)?)?;
    out.reject(record(alloc, name)?)?;
    Ok(())
}

// Three records that are sent, and that are rejected too.
fn gathered(alloc: Global, keep: bool) -> Result<Sends, Fail> {
    let mut out = Sends::new(alloc, keep);
    add(alloc, &mut out, b"a")?;
    add(alloc, &mut out, b"b")?;
    add(alloc, &mut out, b"c")?;
    Ok(out)
}

// Takes out all that is left behind the first record.
fn take_rest(rt: &impl Abort, out: &mut Sends, keep: bool) -> Result<(), Fail> {
    let sent = out.take_sends()?;
    assert_eq!(rt; sent.len(), 2);
    assert!(rt; shows(sent.get(1), b"c"));
    assert_eq!(rt; out.len(), 0);
    assert!(rt; out.take_first().is_none());
    assert_eq!(rt; shows(out.take_kept().get(0), b"b"), keep);
    assert!(rt; out.take_reject().is_none());
    assert_eq!(rt; out.rejects(), 3);
    Ok(())
}

fn check_gathered(rt: &impl Abort, alloc: Global, keep: bool) -> Result<(), Fail> {
    let mut out = gathered(alloc, keep)?;
    assert_eq!(rt; out.keeps(), keep);
    assert_eq!(rt; out.len(), 3);
    assert_eq!(rt; out.rejects(), 3);
    assert!(rt; shows(out.take_first().as_ref(), b"a"));
    assert_eq!(rt; out.take_reject().is_some(), keep);

    // A copy has what is left, and nothing taken out of it is missing here.
    take_rest(rt, &mut out.copy()?, keep)?;
    assert_eq!(rt; out.len(), 2);
    assert_eq!(rt; shows(out.take_reject().as_ref(), b"b"), keep);
    Ok(())
}

#[test]
fn what_is_gathered(rt: HostRuntime) -> Result<(), Fail> {
    check_gathered(&rt, rt.alloc(), false)?;
    check_gathered(&rt, rt.alloc(), true)
}
