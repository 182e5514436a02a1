// The party that keeps what comes over the last edge.
ghost use Rattle.std.specs.Prelude.{◌≡◌, ◌<◌, false, slice_set, vec_len};
ghost use Rattle.ff_steps.specs.Links.{edge_at};
ghost use Rattle.ff_steps.specs.Moves.{drainer_of, DrainerMoves};
ghost use Rattle.ff_steps.specs.Parties.{DrainerTakes};

use ff_node::Records;
use ff_port::{Inbox, PlainQueue};
use ff_rec::{Msg, NoMemory, Record};

/// The output so far.
#[derive(Debug, Drop)]
pub(crate) struct Drainer {
    pub(crate) output: Records,
    pub(crate) refused: bool,
    pub(crate) done: bool,
}

impl Drainer {
    /// Takes a message and keeps its record.
    pub(crate) fn step(&mut self, edges: &mut Vec<PlainQueue<Record>>)
        requires { 1 < vec_len edges.old }
        ensures moves { DrainerMoves (drainer_of self.old) (edge_at edges.old.items 1)
            (drainer_of self.new) (edge_at edges.new.items 1) }
        ensures others { edges.new.items ≡ slice_set edges.old.items 1 (edge_at edges.new.items 1) }
    {
        self.step_at(&mut edges[1]);
    }

    // One step at the edge that it reads.
    fn step_at(&mut self, edge: &mut PlainQueue<Record>)
        ensures { DrainerMoves (drainer_of self.old) edge.old (drainer_of self.new) edge.new }
    {
        if self.done {
            return;
        }
        if let Some(m) = edge.try_take() {
            self.keep(m);
        }
    }

    // A record is kept, unless memory was refused. Eos and Abort end the drainer.
    fn keep(&mut self, m: Msg<Record>)
        ensures { DrainerTakes (drainer_of self.old) m (drainer_of self.new) }
    {
        match m {
            Msg::Item(r) => self.keep_record(r),
            Msg::Mark => {}
            Msg::Pick(_) => {}
            Msg::Eos => self.done = true,
            Msg::Abort => self.done = true,
        }
    }

    fn keep_record(&mut self, r: Record)
        ensures { DrainerTakes (drainer_of self.old) (Msg.Item r) (drainer_of self.new) }
    {
        if self.refused {
            return;
        }
        match self.output.push(r) {
            Ok(()) => {}
            Err(NoMemory) => self.refused = true,
        }
    }
}
