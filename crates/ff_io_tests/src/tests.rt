mod asked;
mod host_files;
mod mem_files;

use ff_io::{
    Failed, FileFault, Files, MemSink, MemSource, ReaderSource, ShortSink, Sink, Source,
    StderrSink, StdinSource, StdoutSink, WriterSink, write_all,
};
use std::alloc::Global;
use std::io;
use std::io::{ErrorKind, Read, Write};
use std::process::Abort;
use std::test::Fail;

/// A load gives all bytes of the file.
pub fn check_load(rt: &impl Abort, files: &mut impl Files, name: &str, limit: usize, want: &[u8]) {
    let bytes = files.load(name, limit).ok();
    assert_eq!(rt; bytes.as_deref(), Some(want), "{name}");
}

/// A load is refused.
pub fn check_refusal(
    rt: &impl Abort,
    files: &mut impl Files,
    name: &str,
    limit: usize,
    want: FileFault,
) {
    assert_eq!(rt; files.load(name, limit).err(), Some(want), "{name}");
}

/// A store succeeds.
pub fn check_store(rt: &impl Abort, files: &mut impl Files, name: &str, bytes: &[u8]) {
    assert_eq!(rt; files.store(name, bytes), Ok(()), "{name}");
}

const FAILED: Result<usize, Failed> = Err(Failed);

fn check_read(
    rt: &impl Abort,
    source: &mut impl Source,
    buf: &mut [u8; 8],
    answer: Result<usize, Failed>,
) {
    assert_eq!(rt; source.read(buf), answer);
}

fn check_write(rt: &impl Abort, sink: &mut impl Sink, bytes: &[u8], answer: Result<(), Failed>) {
    assert_eq!(rt; write_all(sink, bytes), answer);
}

fn check_taken(rt: &impl Abort, sink: &MemSink, want: &[u8]) {
    assert_eq!(rt; sink.taken(), want);
}

#[test]
fn source_gives_pieces_to_its_end(rt: HostRuntime) -> Result<(), Fail> {
    let alloc = rt.alloc();
    let bytes = vec![in alloc; 1, 2, 3, 4, 5]?;
    let mut source = MemSource::new(bytes, 2, vec![in alloc; 2]?);
    let mut buf = [0; 8];
    for (answer, front) in [
        (Ok(2), [1, 2]),
        (FAILED, [1, 2]),
        (Ok(2), [3, 4]),
        (Ok(1), [5, 4]),
        (Ok(0), [5, 4]),
    ] {
        check_read(&rt, &mut source, &mut buf, answer);
        assert!(rt; !source.may_wait());
        assert_eq!(rt; &buf[..2], front.as_slice());
    }
    Ok(())
}

#[test]
fn sink_fails_once_its_budget_is_used_up(rt: HostRuntime) -> Result<(), Fail> {
    let mut sink = MemSink::new(rt.alloc(), 3, Vec::new(rt.alloc()))?;
    check_write(&rt, &mut sink, b"", Ok(()));
    check_write(&rt, &mut sink, b"1\n2\n3", Err(Failed));
    check_write(&rt, &mut sink, b"\n", Err(Failed));
    check_write(&rt, &mut sink, b"", Ok(()));
    check_taken(&rt, &sink, b"1\n2");
    Ok(())
}

#[test]
fn first_write_fails(rt: HostRuntime) -> Result<(), Fail> {
    let mut sink = MemSink::new(rt.alloc(), 9, vec![in rt.alloc(); 1]?)?;
    check_write(&rt, &mut sink, b"ab", Err(Failed));
    check_write(&rt, &mut sink, b"cd", Ok(()));
    check_taken(&rt, &sink, b"cd");
    Ok(())
}

#[test]
fn first_read_fails(rt: HostRuntime) -> Result<(), Fail> {
    let fail = vec![in rt.alloc(); 1]?;
    let mut source = MemSource::new(vec![in rt.alloc(); 7]?, 1, fail);
    let mut buf = [0; 8];
    check_read(&rt, &mut source, &mut buf, FAILED);
    check_read(&rt, &mut source, &mut buf, Ok(1));
    assert_eq!(rt; buf[0], 7);
    Ok(())
}

// A short sink, whose call of this number fails, answers so for five bytes and took these.
fn check_short(
    rt: &impl Abort,
    alloc: Global,
    fail: u64,
    answer: Result<(), Failed>,
    taken: &[u8],
) -> Result<(), Fail> {
    let inner = MemSink::new(alloc, 9, vec![in alloc; fail]?)?;
    let mut sink = ShortSink::new(inner, 2);
    check_write(rt, &mut sink, b"abcde", answer);
    check_taken(rt, &sink.into_inner(), taken);
    Ok(())
}

#[test]
fn short_sink_takes_two_bytes_a_call(rt: HostRuntime) -> Result<(), Fail> {
    check_short(&rt, rt.alloc(), 4, Ok(()), b"abcde")?;
    check_short(&rt, rt.alloc(), 3, Err(Failed), b"abcd")?;
    check_short(&rt, rt.alloc(), 2, Err(Failed), b"ab")
}

// A device that is interrupted at its first call, moves a byte at its second, and then fails.
#[derive(Drop)]
struct Stutters {
    calls: u64,
}

impl Stutters {
    fn answer(&mut self) -> io::Result<()> {
        self.calls = self.calls.saturating_add(1);
        match self.calls {
            1 => Err(ErrorKind::Interrupted.into()),
            2 => Ok(()),
            _ => Err(ErrorKind::BrokenPipe.into()),
        }
    }
}

impl Read for Stutters {
    fn read(&mut self, buf: &mut [u8]) -> io::Result<usize> {
        self.answer()?;
        Ok(buf.len().min(1))
    }
}

impl Write for Stutters {
    fn write(&mut self, piece: &[u8]) -> io::Result<usize> {
        self.answer()?;
        Ok(piece.len().min(1))
    }

    fn flush(&mut self) -> io::Result<()> {
        Ok(())
    }
}

#[test]
fn interrupted_call_is_tried_again(rt: HostRuntime) {
    let mut source = ReaderSource::new(Stutters { calls: 0 });
    let mut buf = [0; 8];
    check_read(&rt, &mut source, &mut buf, Ok(1));
    check_read(&rt, &mut source, &mut buf, FAILED);

    let mut sink = WriterSink::new(Stutters { calls: 0 });
    assert_eq!(rt; sink.write(b"ab"), Ok(1));
    assert_eq!(rt; sink.write(b"b"), FAILED);
}

#[test]
fn standard_streams_are_devices(rt: HostRuntime) {
    check_write(&rt, &mut StdoutSink::new(rt.stdout()), b"\n", Ok(()));
    check_write(&rt, &mut StderrSink::new(rt.stderr()), b"\n", Ok(()));
    // A test has nothing on its standard input.
    let mut input = StdinSource::new(&rt, rt.stdin());
    check_read(&rt, &mut input, &mut [0; 8], Ok(0));
}

#[test]
fn write_that_takes_nothing_fails(rt: HostRuntime) {
    let mut room = [0; 1];
    let mut sink = WriterSink::new(room.as_mut_slice());
    check_write(&rt, &mut sink, b"ab", Err(Failed));
}
