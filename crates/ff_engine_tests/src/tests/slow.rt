// A source that is slow: what it gave is shown before it is asked for more.
ghost use Rattle.std.specs.Prelude.{◌≡◌, ◌<◌, ◌≤◌, length, IfOk};
ghost use Rattle.std.specs.Io.KnownBytes.{ReadConsumes, WriteAppends};
ghost use Rattle.ff_io.specs.Bytes.{is_end};
ghost use Rattle.ff_io.specs.Faults.{HasCause, count_after};

use super::devices::{
    DONE, Host, RINGS, Ring, Slow, checked, expect_answer, pieces_of, run, sink_of,
};
use super::runs::gates;
use crossbeam_utils::atomic::AtomicCell;
use ff_io::{Failed, MemSink, Sink, Source};
use ff_net::Checked;
use ff_spawn::Threads;
use ff_test_nodes::Gate;
use std::alloc::Global;
use std::process::Abort;
use std::sync::Arc;
use std::test::Fail;

// A sink that tells how many bytes it took.
#[derive(Drop)]
struct Telling<K> {
    inner: K,
    taken: Arc<AtomicCell<usize>>,
}

impl<K: Sink> Sink for Telling<K> {
    ghost taken = { λ s. K.taken s.inner };

    ghost faults = { λ s. K.faults s.inner };

    fn write(&mut self, piece: &[u8]) -> Result<usize, Failed> {
        let count = self.inner.write(piece)?;
        self.taken.store(self.taken.load().saturating_add(count));
        Ok(count)
    }
}

// The bytes of a line before its newline, how often it is given, the most bytes of a read, and how many reads there are.
type Reads = (usize, usize, usize, u64);

// A source that counts its reads, and those at which not all that it gave had been taken by the sink.
#[derive(Drop)]
struct Noting<S> {
    inner: S,
    taken: Arc<AtomicCell<usize>>,
    given: usize,
    reads: u64,
    late: u64,
}

impl<S: Source> Source for Noting<S> {
    ghost left = { λ s. S.left s.inner };

    ghost ended = { λ s. S.ended s.inner };

    ghost faults = { λ s. S.faults s.inner };

    fn read(&mut self, buf: &mut [u8]) -> Result<usize, Failed> {
        self.reads = self.reads.saturating_add(1);
        if self.taken.load() != self.given {
            self.late = self.late.saturating_add(1);
        }
        let got = self.inner.read(buf)?;
        self.given = self.given.saturating_add(got);
        Ok(got)
    }
}

// A source that gives a line so often, and at most so many bytes a read.
fn noting_source(
    alloc: Global,
    (width, times, most, _): Reads,
    taken: Arc<AtomicCell<usize>>,
) -> Result<Noting<Slow>, Fail> {
    let mut line = b"1".as_slice().repeat(alloc, width)?;
    line.push(b'\n')?;
    let input = line.as_slice().repeat(alloc, times)?;
    Ok(Noting {
        inner: pieces_of(alloc, &input, most, 0)?,
        taken,
        given: 0,
        reads: 0,
        late: 0,
    })
}

fn telling_sink(
    alloc: Global,
    budget: usize,
    taken: Arc<AtomicCell<usize>>,
) -> Result<Telling<MemSink>, Fail> {
    Ok(Telling {
        inner: sink_of(alloc, budget)?,
        taken,
    })
}

// Each read comes when what came before had been taken.
fn check_slow<R: Host>(
    rt: &R,
    alloc: Global,
    net: &Checked<Gate>,
    ring: Ring,
    reads: Reads,
) -> Result<(), Fail> {
    let taken = Arc::new(alloc, AtomicCell::new(0))?;
    let mut source = noting_source(alloc, reads, Arc::try_clone(&taken)?)?;
    let mut sink = telling_sink(alloc, 999_999, taken)?;
    let mut spawner = Threads::new(rt.clone()?);
    let answer = run(
        rt,
        alloc,
        net,
        ring,
        1,
        &mut source,
        &mut sink,
        &mut spawner,
    );
    expect_answer(rt, (b"", ring.0), answer, DONE, 0);
    assert_eq!(rt; (source.reads, source.late), (reads.3, 0), "at {}", ring.0);
    Ok(())
}

// Through four threads that send on what they get: a line a read, and reads that fill all the room that there is.
#[test]
fn results_are_shown_before_the_next_read(rt: HostRuntime) -> Result<(), Fail> {
    let net = checked(gates(rt.alloc())?)?;
    for ring in RINGS {
        check_slow(&rt, rt.alloc(), &net, ring, (1, 8, 2, 9))?;
        check_slow(&rt, rt.alloc(), &net, ring, (1023, 128, 65_536, 3))?;
    }
    Ok(())
}
