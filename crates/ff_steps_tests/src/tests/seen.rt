// What tests of schedules share: random numbers, and what is seen of a core and compared.
use ff_node::Node;
use ff_rec::print_record;
use ff_steps::NetCore;
use std::alloc::Global;
use std::fmt::Debug;
use std::process::Abort;
use std::test::Fail;

// The next number of a xorshift generator.
pub(super) fn random(seed: &mut u32) -> u32 {
    *seed ^= *seed << 13;
    *seed ^= *seed >> 17;
    *seed ^= *seed << 5;
    *seed
}

// The output so far, one record a line.
pub(super) fn output<N: Node>(alloc: Global, core: &NetCore<N>) -> Result<Vec<u8>, Fail> {
    let mut text = Vec::new(alloc);
    for k in 0..core.output().len() {
        if let Some(r) = core.output().get(k) {
            print_record(r, &mut text)?;
        }
    }
    Ok(text)
}

// The rejects, which are taken out, one record a line.
pub(super) fn rejects<N: Node>(alloc: Global, core: &mut NetCore<N>) -> Result<Vec<u8>, Fail> {
    let mut text = Vec::new(alloc);
    for _ in 0..core.rejected() {
        if let Some(r) = core.take_reject() {
            print_record(&r, &mut text)?;
        }
    }
    Ok(text)
}

// These bytes in order.
pub(super) fn sorted(bytes: Vec<u8>) -> Result<Vec<u8>, Fail> {
    let mut sorted = bytes;
    sorted.sort()?;
    Ok(sorted)
}

// This holds at this place.
pub(super) fn holds(rt: &impl Abort, place: &impl Debug, what: &str, fact: bool) {
    assert!(rt; fact, "{what}, {place:?}");
}

// These bytes are those that are wanted at this place.
pub(super) fn same(rt: &impl Abort, place: &impl Debug, found: &[u8], want: &[u8]) {
    assert_eq!(rt; found, want, "{place:?}");
}
