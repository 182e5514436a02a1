//! The program: it makes the devices of a process and calls `ffrun`.
#![tactic(auto)]

use ff_io::{HostFiles, StderrSink, StdinSource, StdoutSink};
use ff_spawn::Threads;
use ff_top::{Devices, Kinds, ffrun, refuse_memory};
use std::alloc::Global;
use std::io::ErrorKind;
use std::process::ExitCode;
use std::rt::Env;
use std::{env, io};

fn main(rt: HostRuntime) -> ExitCode {
    let alloc = rt.alloc();
    let mut err = StderrSink::new(rt.stderr());
    let words = match read_words(&rt, alloc) {
        Ok(words) => words,
        Err(fault) if fault.kind() == ErrorKind::OutOfMemory => {
            return ExitCode::from(refuse_memory(&mut err));
        }
        // An argument that isn't UTF-8 is part of no command, as no words are.
        Err(_) => Vec::new(alloc),
    };
    let Ok(threads) = rt.clone() else {
        return ExitCode::from(refuse_memory(&mut err));
    };
    let mut devices: Devices<Kinds<_, _, _, _, _, HostRuntime>> = Devices {
        files: HostFiles::new(alloc, &rt, rt.stderr()),
        input: StdinSource::new(&rt, rt.stdin()),
        out: StdoutSink::new(rt.stdout()),
        err,
        spawner: Threads::new(threads),
    };
    let status = ffrun(&rt, alloc, &words, &mut devices);
    ExitCode::from(status)
}

// The arguments behind the program's name.
fn read_words<R: Env + AllocGlobal>(rt: &R, alloc: Global) -> io::Result<Vec<String>> {
    let mut words = Vec::new(alloc);
    for word in env::args(rt)?.skip(1) {
        words.push(word)?;
    }
    Ok(words)
}
