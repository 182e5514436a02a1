// The ports of a wrap's master, behind which a test plays the workers and whoever feeds it.
ghost use Rattle.std.specs.Prelude.{◌≡◌, ◌<◌, [], suc, true, length, replicate, IfOk};
ghost use Rattle.ff_rec.specs.Streams.{IsOpen};
ghost use Rattle.ff_port.specs.Ends.{at, OthersStay, PutsAt};
ghost use Rattle.ff_test_ports.specs.Fickle.{nothing_at};

use super::letters::{next_at, play, send};
use ff_port::{Msg, Past, Ports, Put};
use ff_rec::Record;
use std::alloc::{AllocError, Global};
use std::collections::VecDeque;
use std::test::Fail;

/// Ports where each task is answered at once, by a list of answers as '3:2x| 2:y|': to the record 3 come the record 2, x and a
/// Mark, and to 2 come y and a Mark. A worker answers `.` to Eos and `!` to Abort, where the list says no other.
#[derive(Drop)]
pub(super) struct Players {
    // What clauses read.
    got: Vec<Past<Msg<Record>>>,
    put: Vec<Past<Msg<Record>>>,
    // What comes at each in, and what was put at each out.
    coming: Vec<VecDeque<u8>>,
    seen: Vec<String>,
    answers: &'static str,
    alloc: Global,
}

impl Players {
    /// So many workers. At in 0 come these messages.
    pub(super) fn new(
        alloc: Global,
        fed: &str,
        workers: usize,
        answers: &'static str,
    ) -> Result<Players, Fail>
        requires { workers < 1000 }
        ensures gots { IfOk result (λ p. p.got.items ≡ replicate (suc workers) []) }
        ensures puts { IfOk result (λ p. p.put.items ≡ replicate (suc workers) []) }
    {
        let mut coming = nothing_coming(alloc, workers + 1)?;
        send(&mut coming, 0, fed)?;
        Ok(Players {
            got: nothing_passed(alloc, workers + 1)?,
            put: nothing_passed(alloc, workers + 1)?,
            coming,
            seen: nothing_seen(alloc, workers + 1)?,
            answers,
            alloc,
        })
    }

    /// What was put at each out, with a space behind each.
    pub(super) fn scripts(self) -> Result<String, Fail> {
        let mut all = String::new(self.alloc);
        for script in &self.seen {
            all.push_str(script)?;
            all.push(' ')?;
        }
        Ok(all)
    }
}

// Nothing comes at any of so many.
fn nothing_coming(alloc: Global, count: usize) -> Result<Vec<VecDeque<u8>>, AllocError> {
    let mut all = Vec::new(alloc);
    for _ in 0..count {
        all.push(VecDeque::new(alloc))?;
    }
    Ok(all)
}

// Nothing was put at any of so many.
fn nothing_seen(alloc: Global, count: usize) -> Result<Vec<String>, AllocError> {
    let mut all = Vec::new(alloc);
    for _ in 0..count {
        all.push(String::new(alloc))?;
    }
    Ok(all)
}

// Nothing passed at any of so many.
fn nothing_passed(alloc: Global, count: usize) -> Result<Vec<Past<Msg<Record>>>, Fail>
    ensures { IfOk result (λ all. all.items ≡ replicate count []) }
{
    let mut all = Vec::new(alloc);
    for _ in 0..count {
        all.push(Past::new())?;
    }
    Ok(all)
}

impl Ports<Record> for Players {
    ghost use Rattle.std.specs.Prelude.{◌≡◌, ◌<◌, true, length};
    ghost use Rattle.ff_rec.specs.Streams.{IsOpen};
    ghost use Rattle.ff_port.specs.Ends.{at, OthersStay, PutsAt};
    ghost use Rattle.ff_test_ports.specs.Fickle.{nothing_at, length-nothing_at};

    ghost gots = { λ p. p.got.items };

    ghost puts = { λ p. p.put.items };

    ghost knowns = { λ p. nothing_at p.got.items };

    ghost rooms = { λ p. nothing_at p.put.items };

    ghost waiting = { λ p. 0 };

    ghost grows = { true };

    ghost Link = { Unit {0} };

    ghost link = { λ p. tt };

    fn ins(&self) -> usize {
        self.got.len()
    }

    fn outs(&self) -> usize {
        self.put.len()
    }

    fn try_take(&mut self, k: usize) -> Option<Msg<Record>> {
        match next_at(self.alloc, &mut self.coming, k) {
            None => None,
            Some(m) => {
                self.got[k].note(&m);
                Some(m)
            }
        }
    }

    fn try_put(&mut self, k: usize, m: Msg<Record>) -> Put<Record>
        requires within { k < length self.old.put.items }
        requires inner { IsOpen (at self.old.put.items k) }
        ensures puts { PutsAt true k self.old.put.items (nothing_at self.old.put.items) m result
            self.new.put.items (nothing_at self.new.put.items) }
        ensures others { OthersStay k (nothing_at self.old.put.items) (nothing_at self.new.put.items) }
        ensures gots { self.new.got.items ≡ self.old.got.items }
        ensures knowns { nothing_at self.new.got.items ≡ nothing_at self.old.got.items }
    {
        if play(&mut self.seen, &mut self.coming, self.answers, k, &m).is_err() {
            return Put::Full(m);
        }
        self.put[k].note(&m);
        Put::Done
    }

    fn flush(&mut self) -> bool {
        true
    }

    ghost knowns_length = { λ p. length-nothing_at p.got.items };

    ghost rooms_length = { λ p. length-nothing_at p.put.items };
}
