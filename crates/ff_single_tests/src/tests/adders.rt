// As many nodes as a network may have, which are more than a comb has.
use super::{DONE, summary};
use ff_io::{MemSink, MemSource};
use ff_net::{Checked, Net, Version, check};
use ff_ops::{Arg, Op};
use ff_single::run_single;
use std::alloc::Global;
use std::test::Fail;

// 64 nodes in a row that each add 1.
fn row(alloc: Global) -> Result<Net<Op>, Fail> {
    let args = vec![in alloc; Arg::Num(1), Arg::Num(1)]?;
    let mut parts = Vec::new(alloc);
    for _ in 0..64 {
        parts.push(Net::Leaf(Op::read(alloc, b"add", &args)?))?;
    }
    Ok(Net::Pipe(parts))
}

fn adders(alloc: Global) -> Result<Checked<Op>, Fail> {
    let rows = vec![in alloc; row(alloc)?, row(alloc)?]?;
    Ok(check(Net::Pipe(rows), Version::One).ok().ok_or("refused")?)
}

#[test]
fn each_of_many_nodes_does_its_work(rt: HostRuntime) -> Result<(), Fail> {
    let alloc = rt.alloc();
    let net = adders(alloc)?;
    let mut source = MemSource::new(Vec::from_slice(alloc, b"1\n-7\n")?, 9, Vec::new(alloc));
    let mut sink = MemSink::new(alloc, 99, Vec::new(alloc))?;
    let answer = run_single(alloc, &net, 9, true, &mut source, &mut sink);
    assert_eq!(rt; summary(answer), (DONE, 0, 0));
    assert_eq!(rt; sink.taken(), b"129\n121\n".as_slice());
    Ok(())
}
