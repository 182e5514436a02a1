// The master of a wrap: it hands tasks to workers, and passes their results on.
ghost use Rattle.std.specs.Prelude.{◌≡◌, ◌≤◌, ◌↔◌, List, [], suc, false, replicate, IfOk, IsTrue};
ghost use Rattle.ff_net.specs.Logs.{IsOverLimit};
ghost use Rattle.ff_node.specs.Runs.{Message};
ghost use Rattle.ff_node.specs.Sends.{nothing_sent};
ghost use Rattle.ff_unit.specs.Units.{Ran};
ghost use Rattle.ff_loop.specs.Rounds.{test_of, limit_of, log_of};
ghost use Rattle.ff_loop.specs.WrapMasters.{opened_wrap, wrap_does};

mod next;
mod steps;
mod takes;

use crate::work::Work;
use ff_net::Test;
use ff_node::Sends;
use ff_port::{End, Ports, Step};
use ff_rec::{NoMemory, Record};
use ff_unit::{Flags, Held, HeldPut, Mode, Unit};
use std::alloc::Global;
use std::marker::Model;

/// A unit whose in 0 gives tasks, and whose other ins give the answers of its workers; its outs are those to the workers,
/// and the last one is for the results. A worker has one task at a time, so its edge has room for the next one.
pub struct WrapMaster {
    work: Work,
    // For each worker what came of its answer so far.
    parts: Vec<Sends>,
    // Which ins are to be read.
    live: Flags,
    held: Held,
    mode: Mode,
    end: End,
    over: bool,
    done: bool,
    told: bool,
    // From which answers take their memory.
    alloc: Global,
}

// By hand, so that letting one go is one call for what holds it.
impl Drop for WrapMaster {
    fn drop(self) {
        let WrapMaster {
            work,
            parts,
            live,
            held,
            mode: _,
            end: _,
            over: _,
            done: _,
            told: _,
            alloc: _,
        } = self;
        drop(work);
        drop(parts);
        drop(live);
        drop(held);
    }
}

impl Model for WrapMaster {
    ghost use Rattle.ff_loop.specs.WrapMasters.{WrapState};
    ghost use Rattle.ff_loop.specs.Works.{round_of};

    ghost Value = { WrapState };

    ghost view = { λ m. record {
      round = round_of m.work;
      parts = m.parts.items;
      live = m.live;
      held = m.held;
      mode = m.mode;
      end = m.end;
      over = m.over;
      done = m.done;
      told = m.told;
    } };
}

impl WrapMaster {
    /// A master of so many workers. A record that a worker sends is a task where it meets the test, and else a result. There
    /// may be at most `limit` tasks.
    pub fn new(alloc: Global, test: Test, limit: u64, workers: u32) -> Result<WrapMaster, NoMemory>
        requires some { 1 ≤ workers }
        requires few { workers ≤ 64 }
        ensures opened { IfOk result (λ m. m ≡ opened_wrap test limit workers) }
        ensures ran { IfOk result (λ m. Ran wrap_does m
            (replicate (suc workers) []) (replicate (suc workers) [])) }
    {
        let work = Work::new(alloc, test, limit, workers)?;
        let parts = no_parts(alloc, workers)?;
        let mut live = Flags::all(workers as usize + 1);
        live.close_all();
        live.open(0);
        Ok(WrapMaster {
            work,
            parts,
            live,
            held: Held::nothing(),
            mode: Mode::Live,
            end: End::Eos,
            over: false,
            done: false,
            told: false,
            alloc,
        })
    }

    /// Whether more tasks came than the limit allows, by the log of its run.
    pub fn over(&self) -> bool
        ensures told { result ≡ self.now.over }
        ensures past { (gots puts : List (List Message)) → Ran wrap_does self.now gots puts
            → IsTrue result ↔ IsOverLimit (limit_of self.now.round) (test_of self.now.round)
            (log_of self.now.round) }
    {
        self.over
    }
}

impl Unit for WrapMaster {
    ghost use Rattle.ff_loop.specs.WrapMasterLaws.{IsUnit-wrap};
    ghost use Rattle.ff_loop.specs.WrapMasters.{wrap_does};

    ghost does = { wrap_does };

    fn step_once<P: Ports<Record>>(&mut self, ports: &mut P) -> Step {
        match self.held.put_first(ports) {
            HeldPut::Nothing => self.go_on(ports),
            HeldPut::Done => {
                self.pull();
                Step::Moved
            }
            HeldPut::Full => Step::Waits,
            HeldPut::NoMemory => {
                self.cut_off(End::Memory);
                Step::Moved
            }
        }
    }

    fn end_aborted(&mut self) {
        self.live.close_all();
        self.mode = Mode::Cut;
        self.end = End::Abort;
        self.done = true;
        self.told = true;
    }

    fn take_kept(&mut self) -> Option<Record> {
        None
    }

    fn end(&self) -> Option<End> {
        if self.done && !self.live.any() {
            Some(self.end)
        } else {
            None
        }
    }

    fn rejected(&self) -> u64 {
        0
    }

    ghost sound = { IsUnit-wrap };
}

// So many answers of which nothing came.
fn no_parts(alloc: Global, workers: u32) -> Result<Vec<Sends>, NoMemory>
    ensures { IfOk result (λ parts. parts.items ≡ replicate workers (nothing_sent false)) }
{
    let mut parts = Vec::with_capacity(alloc, workers as usize)?;
    for _ in 0..workers {
        parts.push(Sends::new(alloc, false))?;
    }
    Ok(parts)
}
