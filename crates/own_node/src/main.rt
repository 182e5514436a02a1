//! A program with nodes of its own in a farm: it tells how many readings the widest line of a table has, the first field and
//! lines of more than three readings left aside.
#![tactic(auto)]

mod narrow;
mod network;
mod own;
mod run;
mod widest;

use crate::network::own_network;
use crate::run::widest_line;
use ff_io::{StdinSource, StdoutSink};
use ff_spawn::Threads;
use ff_stream::Stop;
use std::process::ExitCode;

#[cfg(test)]
mod tests;

fn main(rt: HostRuntime) -> ExitCode {
    let alloc = rt.alloc();
    let Ok(threads) = rt.clone() else {
        return ExitCode::from(2);
    };
    let Ok(checked) = own_network(alloc) else {
        return ExitCode::from(2);
    };
    let mut source = StdinSource::new(&rt, rt.stdin());
    let mut sink = StdoutSink::new(rt.stdout());
    let mut spawner = Threads::new(threads);
    let answer = widest_line(&rt, alloc, &checked, &mut source, &mut sink, &mut spawner);
    match answer {
        Ok(ending) => match ending.stop {
            Stop::End => ExitCode::from(0),
            Stop::Read | Stop::Line(_) => ExitCode::from(1),
        },
        Err(_) => ExitCode::from(2),
    }
}
