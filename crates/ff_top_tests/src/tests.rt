// What no clause says: that the calls succeed while memory is there, and that the definitions mean these bytes.
ghost use Rattle.std.specs.Prelude.{◌≤◌};

use cases::{Case, case_of, is_call, text_of, words_of};
use ff_io::{MemFiles, MemSink, MemSource, ShortSink, SlowSource};
use ff_spawn::{RefuseAt, Threads};
use ff_top::{Devices, Kinds, ffrun};
use std::alloc::{AllocError, Global};
use std::process::Abort;
use std::sync::Wait;
use std::test::Fail;
use std::thread;

mod cases;
mod commands;
mod counting;
mod devices;
mod flowing;
mod limits;
mod networks;
mod operations;
mod programs;
mod rejects;
mod sweeping;
mod texts;
mod threads;

// How the devices of a call behave: what the file `net.txt` holds, the call of the files that fails, the most that a read
// gives, the read that fails (calls are counted from 1), what the sinks take in all, and the output at once, and the start of
// a thread that is refused. And how its answer is compared: whether the lines of the output may come in any order, and the
// file, if any, that stands in the last column, whose lines always may.
#[derive(Clone, Copy)]
struct Setting<'a> {
    file: &'a [u8],
    load: u64,
    most: usize,
    fails: u64,
    out: usize,
    err: usize,
    short: usize,
    refuse: u64,
    any_order: bool,
    stored: &'a str,
}

// Devices that do all that is asked of them.
const SOUND: Setting = Setting {
    file: b"",
    load: 0,
    most: 65_536,
    fails: 0,
    out: 200_000,
    err: 100,
    short: 200_000,
    refuse: 0,
    any_order: false,
    stored: "",
};

const ANY_ORDER: Setting = Setting {
    any_order: true,
    ..SOUND
};

// A runtime by which a test calls.
trait Host: thread::Threads + Wait + Abort + Clone + Drop + Send + 'static {}

impl<R: thread::Threads + Wait + Abort + Clone + Drop + Send + 'static> Host for R {}

// The input of a call, of which each read may wait.
type Input = SlowSource<MemSource>;

// The devices of a call, in memory, and a spawner of real threads.
type Made<R> = Devices<
    Kinds<MemFiles, Input, ShortSink<MemSink>, MemSink, RefuseAt<Threads<R>>, R>,
>;

// What a call answered, and its devices behind it.
#[derive(Drop)]
struct Answer {
    status: u8,
    files: MemFiles,
    input: Input,
    out: MemSink,
    err: MemSink,
}

// Makes the call.
fn call<R: Host>(
    rt: &R,
    alloc: Global,
    words: &[String],
    input: &[u8],
    by: Setting,
) -> Result<Answer, Fail> {
    assert!(rt; 1 <= by.most && 1 <= by.short);
    let spawner = make_spawner(rt, alloc, by.refuse)?;
    let mut devices = make_devices(alloc, input, by, spawner)?;
    let status = ffrun(rt, alloc, words, &mut devices);
    Ok(answered(status, devices))
}

fn answered<R: Host>(status: u8, devices: Made<R>) -> Answer {
    let Devices {
        files,
        input,
        out,
        err,
        ..
    } = devices;
    let out = out.into_inner();
    Answer {
        status,
        files,
        input,
        out,
        err,
    }
}

// The devices of a call. The second write to the sink of messages fails, so that only a message of one write is whole.
fn make_devices<R: Host>(
    alloc: Global,
    input: &[u8],
    by: Setting,
    spawner: RefuseAt<Threads<R>>,
) -> Result<Made<R>, Fail>
    requires most { 1 ≤ by.most }
    requires short { 1 ≤ by.short }
{
    Ok(Devices {
        files: make_files(alloc, by)?,
        input: SlowSource::new(MemSource::new(
            Vec::from_slice(alloc, input)?,
            by.most,
            vec![in alloc; by.fails]?,
        )),
        out: ShortSink::new(MemSink::new(alloc, by.out, Vec::new(alloc))?, by.short),
        err: MemSink::new(alloc, by.err, vec![in alloc; 2]?)?,
        spawner,
    })
}

fn make_spawner<R: Host>(
    rt: &R,
    alloc: Global,
    refuse: u64,
) -> Result<RefuseAt<Threads<R>>, AllocError> {
    let threads = Threads::new(rt.clone()?);
    Ok(RefuseAt::new(threads, vec![in alloc; refuse]?))
}

// The files of a call.
fn make_files(alloc: Global, by: Setting) -> Result<MemFiles, AllocError> {
    let mut list = Vec::new(alloc);
    list.push(make_file(alloc, by.file)?)?;
    Ok(MemFiles::new(list, vec![in alloc; by.load]?))
}

fn make_file(alloc: Global, content: &[u8]) -> Result<(String, Vec<u8>), AllocError> {
    Ok((
        String::from_str(alloc, "net.txt")?,
        Vec::from_slice(alloc, content)?,
    ))
}

// Makes the calls of a table, and compares.
fn check_table<R: Host>(rt: &R, alloc: Global, table: &str, by: Setting) -> Result<(), Fail> {
    let mut tried = false;
    for line in table.lines() {
        if is_call(line) {
            check_case(rt, alloc, case_of(line)?, by)?;
            tried = true;
        }
    }
    assert!(rt; tried);
    Ok(())
}

// Makes the calls of a table, each as `run --one` too, and compares.
fn check_twice<R: Host>(rt: &R, alloc: Global, table: &str, by: Setting) -> Result<(), Fail> {
    check_table(rt, alloc, table, by)?;
    for line in table.lines() {
        if is_call(line) {
            check_one(rt, alloc, case_of(line)?, by)?;
        }
    }
    Ok(())
}

// Makes the call of a case as `run --one`, whatever its first word is, and compares.
fn check_one<R: Host>(rt: &R, alloc: Global, case: Case, by: Setting) -> Result<(), Fail> {
    let verb = "run --one";
    check_case(rt, alloc, Case { verb, ..case }, by)
}

// Makes the call of a case, and compares.
fn check_case<R: Host>(rt: &R, alloc: Global, case: Case, by: Setting) -> Result<(), Fail> {
    let words = words_of(alloc, case)?;
    let answer = answer_of(rt, alloc, &words, case.input, by)?;
    expect_case(rt, alloc, &words, &answer, case, by)
}

// What the call answers on an input that stands so in a table.
fn answer_of<R: Host>(
    rt: &R,
    alloc: Global,
    words: &[String],
    input: &str,
    by: Setting,
) -> Result<Answer, Fail> {
    let input = text_of(alloc, input)?;
    call(rt, alloc, words, input.as_bytes(), by)
}

// What a call answered is that of its case.
fn expect_case(
    rt: &impl Abort,
    alloc: Global,
    words: &[String],
    answer: &Answer,
    case: Case,
    by: Setting,
) -> Result<(), Fail> {
    expect_status(rt, words, answer.status, case.status);
    expect_bytes(rt, alloc, ("err", words), answer.err.taken(), case.err)?;
    let out = answer.out.taken();
    if by.any_order {
        expect_lines(rt, alloc, ("out", words), out, case.out)?;
    } else {
        expect_bytes(rt, alloc, ("out", words), out, case.out)?;
    }
    if by.stored.is_empty() {
        return Ok(());
    }
    let held = answer.files.content(by.stored).unwrap_or(b"");
    expect_lines(rt, alloc, (by.stored, words), held, case.stored)
}

fn expect_status(rt: &impl Abort, words: &[String], found: u8, want: u8) {
    assert_eq!(rt; found, want, "{words:?}");
}

// These bytes are those that are wanted, at this place of the call with these words.
fn expect_same(rt: &impl Abort, place: (&str, &[String]), found: &[u8], want: &[u8]) {
    assert_eq!(rt; found, want, "{place:?}");
}

// These bytes are what stands in a column.
fn expect_bytes(
    rt: &impl Abort,
    alloc: Global,
    place: (&str, &[String]),
    found: &[u8],
    column: &str,
) -> Result<(), Fail> {
    let want = text_of(alloc, column)?;
    expect_same(rt, place, found, want.as_bytes());
    Ok(())
}

// These lines are those in a column, in any order.
fn expect_lines(
    rt: &impl Abort,
    alloc: Global,
    place: (&str, &[String]),
    found: &[u8],
    column: &str,
) -> Result<(), Fail> {
    let found = sorted(alloc, found)?;
    let want = text_of(alloc, column)?;
    let want = sorted(alloc, want.as_bytes())?;
    expect_same(rt, place, found.as_bytes(), want.as_bytes());
    Ok(())
}

// A text with its lines in order.
fn sorted(alloc: Global, text: &[u8]) -> Result<String, Fail> {
    let mut lines = Vec::new(alloc);
    for line in str::from_utf8(text)?.split('\n') {
        lines.push(line)?;
    }
    lines.sort()?;
    Ok(joined(alloc, &lines)?)
}

// These lines, each with its end.
fn joined(alloc: Global, lines: &[&str]) -> Result<String, AllocError> {
    let mut text = String::new(alloc);
    for line in lines {
        text.push_str(line)?;
        text.push('\n')?;
    }
    Ok(text)
}

#[test]
fn commands_by_tables(rt: HostRuntime) -> Result<(), Fail> {
    check_table(&rt, rt.alloc(), commands::COMMANDS, SOUND)?;
    check_table(&rt, rt.alloc(), operations::OPERATIONS, SOUND)
}

#[test]
fn networks_by_tables(rt: HostRuntime) -> Result<(), Fail> {
    check_twice(&rt, rt.alloc(), networks::ORDERED, SOUND)?;
    check_twice(&rt, rt.alloc(), networks::ANY_ORDER, ANY_ORDER)?;
    check_twice(&rt, rt.alloc(), networks::BEYOND, SOUND)
}
