// Runs by threads with devices in memory, and what is seen of them.
use ff_engine::{Delivery, NetFault, NetJob, NetUnit, run_net};
use ff_io::{MemSink, MemSource, Sink, SlowSource, Source};
use ff_net::{Checked, Net, Version, check};
use ff_node::Node;
use ff_spawn::{RefuseAt, Spawner, Threads};
use ff_stream::{Ending, Stop};
use ff_test_nodes::Gate;
use std::alloc::Global;
use std::process::Abort;
use std::sync::Wait;
use std::test::Fail;
use std::thread;

/// A runtime by which a test runs threads.
pub trait Host: thread::Threads + Wait + Abort + Clone + Drop + Send + 'static {}

impl<R: thread::Threads + Wait + Abort + Clone + Drop + Send + 'static> Host for R {}

/// The size of rings, and when stages hand over.
pub type Ring = (u32, Delivery);

pub const RINGS: [Ring; 6] = [
    (1, Delivery::Prompt),
    (2, Delivery::Gathered),
    (64, Delivery::Prompt),
    (64, Delivery::Gathered),
    (512, Delivery::Prompt),
    (4096, Delivery::Gathered),
];

/// How a run ends.
#[derive(Clone, Copy, Debug, PartialEq, Eq)]
pub enum Kind {
    Ended(Stop),
    Broken(NetFault),
}

pub const DONE: Kind = Kind::Ended(Stop::End);

/// The input of a run, the read that fails, counted from 1, what the sink takes in all, and the limit of tasks; then how it
/// ends, what the sink took, and how many records were rejected.
#[derive(Clone, Copy)]
pub struct Case<'a> {
    pub input: &'a [u8],
    pub fails: u64,
    pub budget: usize,
    pub limit: u64,
    pub kind: Kind,
    pub out: &'a [u8],
    pub rejected: usize,
}

/// The network, which keeps all rules.
pub fn checked<N: Node>(net: Net<N>) -> Result<Checked<N>, Fail> {
    match check(net, Version::One) {
        Ok(checked) => Ok(checked),
        Err(_) => Err(Fail::from("the network was refused")),
    }
}

/// A source in memory that may wait before each read.
pub type Slow = SlowSource<MemSource>;

/// A slow source whose reads give at most so many bytes, but for the one that fails.
pub fn pieces_of(alloc: Global, input: &[u8], most: usize, fails: u64) -> Result<Slow, Fail> {
    let bytes = Vec::from_slice(alloc, input)?;
    let inner = MemSource::new(bytes, most.max(1), vec![in alloc; fails]?);
    Ok(SlowSource::new(inner))
}

/// A slow source whose reads give two bytes, but for the one that fails.
pub fn source_of(alloc: Global, input: &[u8], fails: u64) -> Result<Slow, Fail> {
    pieces_of(alloc, input, 2, fails)
}

/// A sink that takes so many bytes in all.
pub fn sink_of(alloc: Global, budget: usize) -> Result<MemSink, Fail> {
    Ok(MemSink::new(alloc, budget, Vec::new(alloc))?)
}

/// Runs a network, and keeps what is rejected.
pub fn run<
    N: Node + Send + 'static,
    R: Host,
    I: Source,
    O: Sink,
    S: Spawner<NetJob<NetUnit<N>, R>>,
>(
    rt: &R,
    alloc: Global,
    net: &Checked<N>,
    (cap, delivery): Ring,
    limit: u64,
    source: &mut I,
    sink: &mut O,
    spawner: &mut S,
) -> Result<Ending, NetFault> {
    let cap = cap.clamp(1, 4096);
    run_net(
        rt, alloc, net, cap, delivery, limit, true, source, sink, spawner,
    )
}

// How a run ends, how many records were rejected, and how many of them were kept.
fn summary(answer: Result<Ending, NetFault>) -> (Kind, u64, usize) {
    match answer {
        Ok(Ending { stop, report }) => (Kind::Ended(stop), report.rejected, report.kept.len()),
        Err(fault) => (Kind::Broken(fault), 0, 0),
    }
}

/// A run of this input, with rings of this size or a network of this number, ended so, and kept all that was rejected.
pub fn expect_answer(
    rt: &impl Abort,
    place: (&[u8], u32),
    answer: Result<Ending, NetFault>,
    kind: Kind,
    rejected: usize,
) {
    assert_eq!(rt;
        summary(answer),
        (kind, rejected as u64, rejected),
        "{place:?}"
    );
}

pub fn expect_taken(rt: &impl Abort, sink: &MemSink, out: &[u8]) {
    assert_eq!(rt; sink.taken(), out);
}

// So many threads were started, and none was refused.
fn expect_starts<R: Host>(rt: &R, spawner: &Threads<R>, units: u64) {
    assert_eq!(rt; (spawner.refused(), spawner.starts()), (0, units));
}

/// Runs a network of so many units, and compares. The threads are started as the spawner will.
pub fn compare<R: Host>(
    rt: &R,
    alloc: Global,
    net: &Checked<Gate>,
    units: u64,
    ring: Ring,
    case: Case,
) -> Result<(), Fail> {
    let mut source = source_of(alloc, case.input, case.fails)?;
    let mut sink = sink_of(alloc, case.budget)?;
    let mut spawner = Threads::new(rt.clone()?);
    let limit = case.limit;
    let answer = run(
        rt,
        alloc,
        net,
        ring,
        limit,
        &mut source,
        &mut sink,
        &mut spawner,
    );
    expect_answer(rt, (case.input, ring.0), answer, case.kind, case.rejected);
    expect_taken(rt, &sink, case.out);
    expect_starts(rt, &spawner, units);
    Ok(())
}

// The first read gives two bytes.
fn expect_unread(rt: &impl Abort, source: &mut Slow) {
    let mut buf = [0; 4];
    assert_eq!(rt; source.read(&mut buf), Ok(2));
}

// A spawner of threads that refuses this start.
fn refusing<R: Host>(rt: &R, alloc: Global, refused: u64) -> Result<RefuseAt<Threads<R>>, Fail> {
    let threads = Threads::new(rt.clone()?);
    Ok(RefuseAt::new(threads, vec![in alloc; refused]?))
}

/// Runs a network of which this start is refused: nothing is read or written.
pub fn check_refused<R: Host>(
    rt: &R,
    alloc: Global,
    net: &Checked<Gate>,
    delivery: Delivery,
    limit: u64,
    refused: u64,
) -> Result<(), Fail> {
    let mut source = source_of(alloc, b"1\n", 0)?;
    let mut sink = sink_of(alloc, 99)?;
    let mut spawner = refusing(rt, alloc, refused)?;
    let answer = run(
        rt,
        alloc,
        net,
        (2, delivery),
        limit,
        &mut source,
        &mut sink,
        &mut spawner,
    );
    expect_answer(rt, (b"1\n", 2), answer, Kind::Broken(NetFault::Refused), 0);
    expect_taken(rt, &sink, b"");
    expect_unread(rt, &mut source);
    Ok(())
}
