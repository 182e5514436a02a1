// Networks with a wrap, whose workers double numbers.
use super::doubling::Doubling;
use super::record;
use ff_net::{Net, Test};
use ff_node::Cmp;
use std::alloc::Global;
use std::test::Fail;

// Networks with a wrap.
#[derive(Clone, Copy, Debug)]
pub(super) enum Form {
    // A wrap of so many workers.
    Alone(u32),
    // One of two workers between two nodes that send all on.
    Between,
    // A node that gives up at this number before one of two workers.
    Broken(i64),
    // One of two workers that give up at this number.
    Weak(i64),
}

// The test of the first field for this number.
fn is(value: i64) -> Test {
    Test {
        field: 1,
        cmp: Cmp::Eq,
        value,
    }
}

// A node that sends this twice for that number and everything else on.
fn doubling(alloc: Global, from: i64, to: &[u8]) -> Result<Doubling, Fail> {
    Ok(Doubling {
        from: is(from),
        to: record(alloc, to)?,
        rejects: false,
        gives_up: false,
    })
}

// A node that gives up at this number, and sends everything else on.
fn giving_up(alloc: Global, at: i64) -> Result<Net<Doubling>, Fail> {
    let node = doubling(alloc, at, b"?")?;
    Ok(Net::Leaf(Doubling {
        gives_up: true,
        ..node
    }))
}

// Adds a node that sends this twice for that number.
fn add_doubling(
    nodes: &mut Vec<Net<Doubling>>,
    alloc: Global,
    from: i64,
    to: &[u8],
) -> Result<(), Fail> {
    Ok(nodes.push(Net::Leaf(doubling(alloc, from, to)?))?)
}

// Adds a node that rejects this number.
fn add_rejecting(nodes: &mut Vec<Net<Doubling>>, alloc: Global, at: i64) -> Result<(), Fail> {
    let node = doubling(alloc, at, b"?")?;
    Ok(nodes.push(Net::Leaf(Doubling {
        rejects: true,
        ..node
    }))?)
}

// This node before those that reject and double.
fn worker(alloc: Global, first: Net<Doubling>) -> Result<Net<Doubling>, Fail> {
    let mut nodes = Vec::new(alloc);
    nodes.push(first)?;
    add_rejecting(&mut nodes, alloc, 7)?;
    add_doubling(&mut nodes, alloc, 1, b"a")?;
    add_doubling(&mut nodes, alloc, 3, b"1")?;
    add_doubling(&mut nodes, alloc, 5, b"3")?;
    Ok(Net::Comb(nodes))
}

// A wrap whose workers are this node before others; each record of a number above 0 is a task.
fn wrap(alloc: Global, workers: u32, first: Net<Doubling>) -> Result<Net<Doubling>, Fail> {
    Ok(Net::Wrap {
        workers,
        worker: Box::new(alloc, worker(alloc, first)?)?,
        test: Test {
            field: 1,
            cmp: Cmp::Gt,
            value: 0,
        },
    })
}

// A node that sends all on.
fn still(alloc: Global) -> Result<Net<Doubling>, Fail> {
    Ok(Net::Leaf(doubling(alloc, 99, b"?")?))
}

fn between(alloc: Global) -> Result<Net<Doubling>, Fail> {
    let mut parts = Vec::new(alloc);
    parts.push(still(alloc)?)?;
    parts.push(wrap(alloc, 2, still(alloc)?)?)?;
    parts.push(still(alloc)?)?;
    Ok(Net::Pipe(parts))
}

fn broken(alloc: Global, at: i64) -> Result<Net<Doubling>, Fail> {
    let mut parts = Vec::new(alloc);
    parts.push(giving_up(alloc, at)?)?;
    parts.push(wrap(alloc, 2, still(alloc)?)?)?;
    Ok(Net::Pipe(parts))
}

// The network of this form.
pub(super) fn network(alloc: Global, form: Form) -> Result<Net<Doubling>, Fail> {
    match form {
        Form::Alone(workers) => wrap(alloc, workers, still(alloc)?),
        Form::Between => between(alloc),
        Form::Broken(at) => broken(alloc, at),
        Form::Weak(at) => wrap(alloc, 2, giving_up(alloc, at)?),
    }
}
