// The party that puts the input on the first edge.
ghost use Rattle.std.specs.Prelude.{◌≡◌, ◌<◌, false, length, slice_set, vec_len, IfOk, OnErr};
ghost use Rattle.ff_rec.specs.Streams.{IsOpen};
ghost use Rattle.ff_port.specs.Queues.{put_of};
ghost use Rattle.ff_steps.specs.Links.{edge_at};
ghost use Rattle.ff_steps.specs.Moves.{feeder_of, next_message, passed_on, FeederMoves};

use ff_node::Records;
use ff_port::{Outbox, PlainQueue, Put};
use ff_rec::{Kept, Msg, NoMemory, Record};

/// The input, with how far it was put.
#[derive(Debug, Drop)]
pub(crate) struct Feeder {
    pub(crate) input: Records,
    pub(crate) fed: usize,
    pub(crate) refused: bool,
    pub(crate) done: bool,
}

impl Feeder {
    /// Puts the next record, Eos behind the last one, or Abort once memory was refused.
    pub(crate) fn step(&mut self, edges: &mut Vec<PlainQueue<Record>>)
        requires some { 0 < vec_len edges.old }
        requires inner { self.old.done ≡ false → IsOpen (put_of (edge_at edges.old.items 0)) }
        ensures moves { FeederMoves (feeder_of self.old) (edge_at edges.old.items 0)
            (feeder_of self.new) (edge_at edges.new.items 0) }
        ensures others { edges.new.items ≡ slice_set edges.old.items 0 (edge_at edges.new.items 0) }
        ensures input { self.new.input ≡ self.old.input }
    {
        self.step_at(&mut edges[0]);
    }

    // One step at the edge that it writes.
    fn step_at(&mut self, edge: &mut PlainQueue<Record>)
        requires inner { self.old.done ≡ false → IsOpen (put_of edge.old) }
        ensures moves { FeederMoves (feeder_of self.old) edge.old (feeder_of self.new) edge.new }
        ensures input { self.new.input ≡ self.old.input }
    {
        if self.done {
            return;
        }
        match self.next() {
            Ok(m) => self.put(edge, m),
            Err(NoMemory) => self.refused = true,
        }
    }

    // What it puts next.
    fn next(&self) -> Result<Msg<Record>, NoMemory>
        ensures next { IfOk result
            (λ m. m ≡ next_message self.now.refused (feeder_of self.now).left) }
        ensures refused { OnErr result (self.now.refused ≡ false) }
    {
        if self.refused {
            return Ok(Msg::Abort);
        }
        match self.input.get(self.fed) {
            Some(r) => Ok(Msg::Item(r.copy()?)),
            None => Ok(Msg::Eos),
        }
    }

    // Puts that message, as far as there is room and memory.
    fn put(&mut self, edge: &mut PlainQueue<Record>, m: Msg<Record>)
        requires next { m ≡ next_message self.old.refused (feeder_of self.old).left }
        requires live { self.old.done ≡ false }
        requires inner { IsOpen (put_of edge.old) }
        ensures moves { FeederMoves (feeder_of self.old) edge.old (feeder_of self.new) edge.new }
        ensures input { self.new.input ≡ self.old.input }
    {
        match edge.try_put(m) {
            Put::Done => self.pass(),
            Put::Full(_) => {}
            Put::NoMemory(_) => self.refused = true,
        }
    }

    // Its next message was put.
    fn pass(&mut self)
        requires { self.old.done ≡ false }
        ensures passed { feeder_of self.new ≡ passed_on self.old.refused (feeder_of self.old).left }
        ensures input { self.new.input ≡ self.old.input }
    {
        if self.refused || self.input.len() <= self.fed {
            self.done = true;
        } else {
            self.fed += 1;
        }
    }
}
