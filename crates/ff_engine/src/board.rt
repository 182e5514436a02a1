// The ends of the rings between threads, kept by the numbers of their edges.
ghost use Rattle.std.specs.Prelude.{◌≡◌, ◌≤◌, length, All, IfOk, OnOk};
ghost use Rattle.std.specs.List.{AllZip};
ghost use Rattle.std.specs.Option.{option_map};
ghost use Rattle.ff_ring.specs.Ends.{got_of, put_of, read_ring, written_ring};
ghost use Rattle.ff_engine.specs.Boards.{IsFreshPair, IsRingOf, IsReadAs, IsFirst, writer_hurries, writer_is_told, gots_on, puts_on, reads_on, writes_on};
ghost use Rattle.ff_engine.specs.Slots.{slot};

use crate::Delivery;
use crate::bells::Bells;
use ff_plan::{Edge, Party, UnitKind, UnitRow};
use ff_rec::{NoMemory, Record};
use ff_ring::{RingIn, RingOut, ring, settle};
use std::alloc::Global;
use std::sync::Arc;

/// The reading and the writing end of the ring of each edge, while no job has it. An end that is taken out leaves its
/// place, so that putting it back takes no memory.
#[derive(Drop)]
pub(crate) struct Board {
    pub(crate) ins: Vec<Option<RingIn<Record>>>,
    pub(crate) outs: Vec<Option<RingOut<Record>>>,
}

/// A ring for each of these edges of the units of these rows, between the bells of its writer and its reader.
pub(crate) fn make_rings(
    alloc: Global,
    delivery: Delivery,
    rows: &[UnitRow],
    edges: &[Edge],
    bells: &Bells,
) -> Result<Board, NoMemory>
    requires low { All (λ edge. 1 ≤ edge.cap) edges.now }
    requires high { All (λ edge. edge.cap ≤ 4096) edges.now }
    ensures fresh { IfOk result (λ board. AllZip IsFreshPair board.ins.items board.outs.items) }
    ensures count { IfOk result (λ board. length board.ins.items ≡ length edges.now) }
    ensures caps { IfOk result (λ board. AllZip (IsRingOf delivery rows.now) edges.now board.outs.items) }
    ensures told { IfOk result (λ board. AllZip (IsReadAs delivery rows.now) edges.now board.ins.items) }
{
    let mut ins = Vec::new(alloc);
    let mut outs = Vec::new(alloc);
    for edge in edges {
        let writer = Arc::try_clone(bells.of(edge.writer))?;
        let reader = Arc::try_clone(bells.of(edge.reader))?;
        let (mut out, mut inn) = ring(alloc, edge.cap as usize, writer, reader)?;
        out.set_eager(hurries(delivery, edge.writer, rows));
        inn.set_eager(is_told(delivery, edge.writer, rows));
        ins.push(Some(inn))?;
        outs.push(Some(out))?;
    }
    Ok(Board { ins, outs })
}

// Whether the writer of an edge hands over as soon as its reader has taken all else, and not only full bundles, and what waits
// once it runs dry or has napped. A stage does where that is asked for, and the master of a wrap does, whose workers wait for their next
// task. The others are at their next message or at their pause at once, and a hand-over for each message would cost them more.
fn hurries(delivery: Delivery, writer: Party, rows: &[UnitRow]) -> bool
    ensures { result ≡ writer_hurries delivery rows.now writer }
{
    let Party::Unit(number) = writer else {
        return false;
    };
    match rows.get(number as usize) {
        Some(row) => match row.kind {
            UnitKind::Stage => matches!(delivery, Delivery::Prompt),
            UnitKind::Master => true,
            _ => false,
        },
        None => true,
    }
}

// Whether the writer of an edge is told of each block that comes back, and not only of those of half a ring. A node that takes long, or
// waits for another one, would leave a writer asleep that has room.
fn is_told(delivery: Delivery, writer: Party, rows: &[UnitRow]) -> bool
    ensures { result ≡ writer_is_told delivery rows.now writer }
{
    matches!(delivery, Delivery::Prompt) || hurries(delivery, writer, rows)
}

/// Settles all rings, once their threads have ended.
pub(crate) fn settle_rings(
    ins: &mut Vec<Option<RingIn<Record>>>,
    outs: &mut Vec<Option<RingOut<Record>>>,
)
    requires { reads_on ins.old.items ≡ writes_on outs.old.items }
    ensures gots { gots_on ins.new.items ≡ gots_on ins.old.items }
    ensures puts { puts_on outs.new.items ≡ puts_on outs.old.items }
    ensures first { AllZip IsFirst (gots_on ins.old.items) (puts_on outs.old.items) }
{
    for k in 0..ins.len() {
        settle_ring(&mut ins[k], &mut outs[k]);
    }
}

// Settles a ring, if it is there.
fn settle_ring(inn: &mut Option<RingIn<Record>>, out: &mut Option<RingOut<Record>>)
    requires { option_map (λ i. read_ring i) inn.old ≡ option_map (λ o. written_ring o) out.old }
    ensures reads { option_map (λ i. read_ring i) inn.new ≡ option_map (λ i. read_ring i) inn.old }
    ensures writes { option_map (λ o. written_ring o) out.new ≡ option_map (λ o. written_ring o) out.old }
    ensures gots { option_map (λ i. got_of i) inn.new ≡ option_map (λ i. got_of i) inn.old }
    ensures puts { option_map (λ o. put_of o) out.new ≡ option_map (λ o. put_of o) out.old }
    ensures first { IsFirst (option_map (λ i. got_of i) inn.old) (option_map (λ o. put_of o) out.old) }
{
    if let (Some(inn), Some(out)) = (inn, out) {
        settle(out, inn);
    }
}
