// The ports of a unit over the edges of a core.
ghost use Rattle.std.specs.Prelude.{◌≡◌, ◌<◌, ℕ, length, slice_index};

use ff_port::{Inbox, Outbox, PlainQueue, Ports, Put};
use ff_rec::{Msg, Record};

/// The edges of a core, lent to a unit that reads some of them and writes others.
#[derive(Drop)]
pub(crate) struct RowPorts<'a> {
    pub(crate) edges: &'a mut Vec<PlainQueue<Record>>,
    pub(crate) ins: &'a [usize],
    pub(crate) outs: &'a [usize],
    ghost ins_within: { (i : ℕ) → i < length ins.now
        → slice_index ins.now i < length edges.now.items },
    ghost outs_within: { (i : ℕ) → i < length outs.now
        → slice_index outs.now i < length edges.now.items },
    ghost ins_differ: { (i j : ℕ) → i < length ins.now → j < length ins.now
        → slice_index ins.now i ≡ slice_index ins.now j → i ≡ j },
    ghost outs_differ: { (i j : ℕ) → i < length outs.now → j < length outs.now
        → slice_index outs.now i ≡ slice_index outs.now j → i ≡ j },
    ghost apart: { (i j : ℕ) → i < length ins.now → j < length outs.now
        → slice_index ins.now i ≡ slice_index outs.now j → ⊥ },
}

impl Ports<Record> for RowPorts<'_> {
    ghost use Rattle.std.specs.Prelude.{true, length};
    ghost use Rattle.std.specs.Prelude.{◌≡◌, ◌<◌};
    ghost use Rattle.std.proofs.Common.{◌∙◌, sym};
    ghost use Rattle.std.proofs.lemmas.List.{length-map};
    ghost use Rattle.ff_rec.specs.Streams.{IsOpen};
    ghost use Rattle.ff_port.specs.Ends.{at, OthersStay, PutsAt};
    ghost use Rattle.ff_port.specs.Queues.{put_of, room_of};
    ghost use Rattle.ff_steps.specs.Links.{ends_at, gots_at, puts_at, knowns_at, rooms_at, RowLink, link_of};

    ghost gots = { λ p. gots_at p.edges.now.items p.ins.now };

    ghost puts = { λ p. puts_at p.edges.now.items p.outs.now };

    ghost knowns = { λ p. knowns_at p.edges.now.items p.ins.now };

    ghost rooms = { λ p. rooms_at p.edges.now.items p.outs.now };

    ghost waiting = { λ p. 0 };

    ghost grows = { true };

    ghost Link = { RowLink };

    ghost link = { λ p. link_of p.edges.ghost_name p.edges.now.items p.ins.now p.outs.now };

    fn ins(&self) -> usize {
        self.ins.len()
    }

    fn outs(&self) -> usize {
        self.outs.len()
    }

    fn try_take(&mut self, k: usize) -> Option<Msg<Record>> {
        let e = self.ins[k];
        self.edges[e].try_take()
    }

    fn try_put(&mut self, k: usize, m: Msg<Record>) -> Put<Record>
        requires within { k < length (puts_at self.old.edges.now.items self.old.outs.now) }
        requires inner { IsOpen (at (puts_at self.old.edges.now.items self.old.outs.now) k) }
        ensures link { link_of self.new.edges.ghost_name self.new.edges.now.items
            self.new.ins.now self.new.outs.now
            ≡ link_of self.old.edges.ghost_name self.old.edges.now.items
            self.old.ins.now self.old.outs.now }
        ensures puts { PutsAt true k (puts_at self.old.edges.now.items self.old.outs.now)
            (rooms_at self.old.edges.now.items self.old.outs.now) m result
            (puts_at self.new.edges.now.items self.new.outs.now)
            (rooms_at self.new.edges.now.items self.new.outs.now) }
        ensures others { OthersStay k (rooms_at self.old.edges.now.items self.old.outs.now)
            (rooms_at self.new.edges.now.items self.new.outs.now) }
        ensures gots { gots_at self.new.edges.now.items self.new.ins.now
            ≡ gots_at self.old.edges.now.items self.old.ins.now }
        ensures knowns { knowns_at self.new.edges.now.items self.new.ins.now
            ≡ knowns_at self.old.edges.now.items self.old.ins.now }
    {
        let e = self.outs[k];
        self.edges[e].try_put(m)
    }

    fn flush(&mut self) -> bool {
        true
    }

    ghost knowns_length = { λ p. length-map (ends_at p.edges.now.items p.ins.now) (λ q. length q.inside)
        ∙ sym (length-map (ends_at p.edges.now.items p.ins.now) (λ q. q.got)) };

    ghost rooms_length = { λ p. length-map (ends_at p.edges.now.items p.outs.now) (λ q. room_of q)
        ∙ sym (length-map (ends_at p.edges.now.items p.outs.now) (λ q. put_of q)) };
}
