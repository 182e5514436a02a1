// Ports that own their ends.
ghost use Rattle.std.specs.Prelude.{◌≡◌, ◌↔◌, ◌+◌, ◌<◌, ◌≤◌, ◌^◌, ◌-◌, [], length, map, min, option_to_list, IsTrue};
ghost use Rattle.std.specs.List.{sum_by};
ghost use Rattle.ff_rec.specs.Streams.{IsOpen};
ghost use Rattle.ff_port.specs.Ends.{at, OthersStay, TakesAt, PutsAt};
ghost use Rattle.ff_port.specs.Owned.{AllEmpty, count_of, links_of};

use crate::{Inbox, Outbox, Ports, Put};
use ff_rec::Msg;
use std::marker::PhantomData;

/// The ends of one unit, which no other unit shares.
#[derive(Drop)]
pub struct OwnPorts<I: Inbox<T>, O: Outbox<T>, T> {
    ins: Vec<I>,
    outs: Vec<O>,
    taken: u64,
    carries: PhantomData<T>,
    ghost counted: { taken ≡ min (count_of I.got ins.items) (2 ^ 64 - 1) },
}

impl<I: Inbox<T>, O: Outbox<T>, T> OwnPorts<I, O, T> {
    /// The ports of these ends, numbered in their order. Nothing was taken yet.
    pub fn new(ins: Vec<I>, outs: Vec<O>) -> OwnPorts<I, O, T>
        requires { AllEmpty I.got ins.items }
        ensures ins { result.ins ≡ ins }
        ensures outs { result.outs ≡ outs }
    {
        OwnPorts {
            ins,
            outs,
            taken: 0,
            carries: PhantomData,
        }
    }

    /// How many messages were taken at all ins together, at most 2^64 - 1.
    pub fn taken(&self) -> u64
        ensures { result ≡ min (count_of I.got self.now.ins.items) (2 ^ 64 - 1) }
    {
        self.taken
    }

    /// The ins and the outs, in their order.
    pub fn into_ends(self) -> (Vec<I>, Vec<O>)
        ensures ins { result.0 ≡ self.ins }
        ensures outs { result.1 ≡ self.outs }
    {
        let OwnPorts { ins, outs, .. } = self;
        (ins, outs)
    }
}

impl<I: Inbox<T>, O: Outbox<T>, T> Ports<T> for OwnPorts<I, O, T> {
    ghost use Rattle.std.specs.Prelude.{List, map};
    ghost use Rattle.std.specs.List.{sum_by};
    ghost use Rattle.ff_port.specs.Owned.{links_of};
    ghost use Rattle.std.proofs.Common.{refl, ◌∙◌, sym};
    ghost use Rattle.std.proofs.lemmas.List.{length-map};

    ghost gots = { λ p. map I.got p.ins.items };

    ghost puts = { λ p. map O.put p.outs.items };

    ghost knowns = { λ p. map I.known p.ins.items };

    ghost rooms = { λ p. map O.room p.outs.items };

    ghost waiting = { λ p. sum_by O.waiting p.outs.items };

    ghost grows = { O.grows };

    ghost Link = { List I.Link × List O.Link };

    ghost link = { λ p. links_of I.link O.link p.ins.items p.outs.items };

    ghost knowns_length = { λ p. length-map p.ins.items I.known ∙ sym (length-map p.ins.items I.got) };

    ghost rooms_length = { λ p. length-map p.outs.items O.room ∙ sym (length-map p.outs.items O.put) };

    fn ins(&self) -> usize {
        self.ins.len()
    }

    fn outs(&self) -> usize {
        self.outs.len()
    }

    // Always inline: a message that is handed on through memory is moved once more, and the processor waits for that.
    #[inline(always)]
    fn try_take(&mut self, k: usize) -> Option<Msg<T>> {
        let m = take_at(&mut self.ins, k)?;
        self.taken = self.taken.saturating_add(1);
        Some(m)
    }

    #[inline(always)]
    fn try_put(&mut self, k: usize, m: Msg<T>) -> Put<T>
        requires within { k < length (map O.put self.old.outs.items) }
        requires inner { IsOpen (at (map O.put self.old.outs.items) k) }
        ensures link { links_of I.link O.link self.new.ins.items self.new.outs.items
            ≡ links_of I.link O.link self.old.ins.items self.old.outs.items }
        ensures puts { PutsAt O.grows k (map O.put self.old.outs.items) (map O.room self.old.outs.items)
            m result (map O.put self.new.outs.items) (map O.room self.new.outs.items) }
        ensures others { OthersStay k (map O.room self.old.outs.items)
            (map O.room self.new.outs.items) }
        ensures gots { map I.got self.new.ins.items ≡ map I.got self.old.ins.items }
        ensures knowns { map I.known self.new.ins.items ≡ map I.known self.old.ins.items }
    {
        put_at(&mut self.outs, k, m)
    }

    fn flush(&mut self) -> bool {
        tell_all(&mut self.ins);
        flush_all(&mut self.outs)
    }
}

// The next message at in `k`.
#[inline(always)]
fn take_at<I: Inbox<T>, T>(ins: &mut Vec<I>, k: usize) -> Option<Msg<T>>
    requires { k < length ins.old.items }
    ensures link { map I.link ins.new.items ≡ map I.link ins.old.items }
    ensures takes { TakesAt k (map I.got ins.old.items) (map I.known ins.old.items) result
        (map I.got ins.new.items) (map I.known ins.new.items) }
    ensures others { OthersStay k (map I.known ins.old.items) (map I.known ins.new.items) }
    ensures counted { count_of I.got ins.new.items
        ≡ count_of I.got ins.old.items + length (option_to_list result) }
{
    ins[k].try_take()
}

// Puts a message at out `k`, or hands it back.
#[inline(always)]
fn put_at<O: Outbox<T>, T>(outs: &mut Vec<O>, k: usize, m: Msg<T>) -> Put<T>
    requires within { k < length outs.old.items }
    requires inner { IsOpen (at (map O.put outs.old.items) k) }
    ensures link { map O.link outs.new.items ≡ map O.link outs.old.items }
    ensures puts { PutsAt O.grows k (map O.put outs.old.items) (map O.room outs.old.items)
        m result (map O.put outs.new.items) (map O.room outs.new.items) }
    ensures others { OthersStay k (map O.room outs.old.items) (map O.room outs.new.items) }
{
    outs[k].try_put(m)
}

// Tells the writers of all ins of what was taken.
fn tell_all<I: Inbox<T>, T>(ins: &mut Vec<I>)
    ensures link { map I.link ins.new.items ≡ map I.link ins.old.items }
    ensures gots { map I.got ins.new.items ≡ map I.got ins.old.items }
    ensures knowns { map I.known ins.new.items ≡ map I.known ins.old.items }
    ensures counted { count_of I.got ins.new.items ≡ count_of I.got ins.old.items }
{
    for inn in ins.iter_mut() {
        inn.tell();
    }
}

// Hands over what waits at each out. It answers whether nothing is left.
#[tactic(auto, using(crate::proofs::Rows::sum_by_more_set))]
fn flush_all<O: Outbox<T>, T>(outs: &mut Vec<O>) -> bool
    ensures link { map O.link outs.new.items ≡ map O.link outs.old.items }
    ensures puts { map O.put outs.new.items ≡ map O.put outs.old.items }
    ensures flushed { IsTrue result ↔ (sum_by O.waiting outs.new.items ≡ 0) }
{
    let mut all = true;
    for out in outs.iter_mut() {
        if !out.flush() {
            all = false;
        }
    }
    all
}
