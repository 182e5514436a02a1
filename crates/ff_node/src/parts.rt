// Records on their way through the parts of a comb: what is sent by one part is given to the next.
ghost use Rattle.std.specs.Prelude.{◌≡◌, ◌≤◌, ◌∷◌, ◌++◌, [], map, length, take, drop, OnOk};
ghost use Rattle.ff_node.specs.Comb.{part, parts, part_after, part_sends, part_rejects, through_after, through, through_rejects, total, total_rejects};
ghost use Rattle.ff_node.specs.Passing.{fed, fed_last, passed, passed_last, sent_alone};
ghost use Rattle.ff_node.specs.Sends.{add};

use crate::{Node, Sends, node_step};
use ff_rec::{NoMemory, Record};

// The records in `out` to a part, which puts in their place what it sends; one that has ended drops them.
#[inline]
fn feed<N: Node>(node: &mut N, ended: &mut bool, out: &mut Sends) -> Result<(), NoMemory>
    ensures kind { N.does.opening node.new ≡ N.does.opening node.old }
    ensures state { OnOk result
        (part node.new ended.new ≡ part_after N.does (part node.old ended.old) out.old.sends) }
    ensures sends { OnOk result (out.new ≡ fed N.does (part node.old ended.old) out.old) }
{
    for _taken in 0..out.len() {
        let Some(r) = out.take_first() else {
            return Ok(());
        };
        give(node, ended, r, out)?;
    }
    Ok(())
}

// A record to a part; one that has ended drops it.
#[inline(always)]
fn give<N: Node>(node: &mut N, ended: &mut bool, r: Record, out: &mut Sends) -> Result<(), NoMemory>
    ensures kind { N.does.opening node.new ≡ N.does.opening node.old }
    ensures state { OnOk result
        (part node.new ended.new ≡ part_after N.does (part node.old ended.old) (r ∷ [])) }
    ensures sends { OnOk result (out.new ≡ add out.old
        (part_sends N.does (part node.old ended.old) (r ∷ []))
        (part_rejects N.does (part node.old ended.old) (r ∷ []))) }
{
    if *ended {
        drop(r);
    } else {
        *ended = node_step(node, r, out)?.is_eos();
    }
    Ok(())
}

// The last records in `out` to a part, and then its end, unless it has ended by itself.
fn end<N: Node>(node: &mut N, ended: &mut bool, out: &mut Sends) -> Result<(), NoMemory>
    ensures kind { N.does.opening node.new ≡ N.does.opening node.old }
    ensures sends { OnOk result (out.new ≡ fed_last N.does (part node.old ended.old) out.old) }
{
    feed(node, ended, out)?;
    if !*ended {
        node.eos_notify(out)?;
    }
    Ok(())
}

/// A record through all parts: what comes out behind the last is added to `out`. What was sent before stands aside
/// meanwhile, if there is any.
#[inline(always)]
pub(crate) fn pass<N: Node>(
    nodes: &mut [N],
    ended: &mut [bool],
    r: Record,
    out: &mut Sends,
) -> Result<(), NoMemory>
    requires flags { length nodes.old ≤ length ended.old }
    ensures kind { map N.does.opening nodes.new ≡ map N.does.opening nodes.old }
    ensures state { OnOk result
        (parts nodes.new ended.new ≡ through_after N.does (parts nodes.old ended.old) (r ∷ [])) }
    ensures sends { OnOk result (out.new ≡ add out.old
        (through N.does (parts nodes.old ended.old) (r ∷ []))
        (through_rejects N.does (parts nodes.old ended.old) (r ∷ []))) }
{
    if out.len() == 0 {
        return pass_one(nodes, ended, r, out);
    }
    pass_behind(nodes, ended, r, out)
}

// A record through all parts, where records that were sent before stand aside meanwhile. It stands apart, so that a
// node that sends one record for each is quick.
#[inline(never)]
fn pass_behind<N: Node>(
    nodes: &mut [N],
    ended: &mut [bool],
    r: Record,
    out: &mut Sends,
) -> Result<(), NoMemory>
    requires flags { length nodes.old ≤ length ended.old }
    ensures kind { map N.does.opening nodes.new ≡ map N.does.opening nodes.old }
    ensures state { OnOk result
        (parts nodes.new ended.new ≡ through_after N.does (parts nodes.old ended.old) (r ∷ [])) }
    ensures sends { OnOk result (out.new ≡ add out.old
        (through N.does (parts nodes.old ended.old) (r ∷ []))
        (through_rejects N.does (parts nodes.old ended.old) (r ∷ []))) }
{
    let before = out.take_queue()?;
    out.send(r)?;
    pass_all(nodes, ended, 0, out)?;
    out.put_before(before)?;
    Ok(())
}

// A record through all parts, where nothing was sent before it. The first part takes it at once.
#[inline(always)]
fn pass_one<N: Node>(
    nodes: &mut [N],
    ended: &mut [bool],
    r: Record,
    out: &mut Sends,
) -> Result<(), NoMemory>
    requires flags { length nodes.old ≤ length ended.old }
    requires empty { out.old.sends ≡ [] }
    ensures kind { map N.does.opening nodes.new ≡ map N.does.opening nodes.old }
    ensures state { OnOk result
        (parts nodes.new ended.new ≡ through_after N.does (parts nodes.old ended.old) (r ∷ [])) }
    ensures sends { OnOk result (out.new
        ≡ passed N.does (parts nodes.old ended.old) (sent_alone r out.old)) }
{
    if nodes.is_empty() {
        return out.send(r);
    }
    give(&mut nodes[0], &mut ended[0], r, out)?;
    pass_all(nodes, ended, 1, out)
}

/// The end of all parts: what comes out behind the last is added to `out`.
pub(crate) fn finish<N: Node>(
    nodes: &mut [N],
    ended: &mut [bool],
    out: &mut Sends,
) -> Result<(), NoMemory>
    requires flags { length nodes.old ≤ length ended.old }
    ensures kind { map N.does.opening nodes.new ≡ map N.does.opening nodes.old }
    ensures sends { OnOk result (out.new ≡ add out.old
        (total N.does (parts nodes.old ended.old) [])
        (total_rejects N.does (parts nodes.old ended.old) [])) }
{
    if out.len() == 0 {
        finish_all(nodes, ended, out)?;
        return Ok(());
    }
    let before = out.take_queue()?;
    finish_all(nodes, ended, out)?;
    out.put_before(before)?;
    Ok(())
}

// The records in `out` through the parts from one on: what comes out behind the last is in their place then.
fn pass_all<N: Node>(
    nodes: &mut [N],
    ended: &mut [bool],
    from: usize,
    out: &mut Sends,
) -> Result<(), NoMemory>
    requires flags { length nodes.old ≤ length ended.old }
    requires within { from ≤ length nodes.old }
    ensures kind { map N.does.opening nodes.new ≡ map N.does.opening nodes.old }
    ensures state { OnOk result (parts nodes.new ended.new
        ≡ take from (parts nodes.old ended.old)
        ++ through_after N.does (drop from (parts nodes.old ended.old)) out.old.sends) }
    ensures sends { OnOk result (out.new
        ≡ passed N.does (drop from (parts nodes.old ended.old)) out.old) }
{
    for i in from..nodes.len() {
        feed(&mut nodes[i], &mut ended[i], out)?;
    }
    Ok(())
}

// With each part's end: its last records go through the parts behind it.
fn finish_all<N: Node>(nodes: &mut [N], ended: &mut [bool], out: &mut Sends) -> Result<(), NoMemory>
    requires flags { length nodes.old ≤ length ended.old }
    ensures kind { map N.does.opening nodes.new ≡ map N.does.opening nodes.old }
    ensures sends { OnOk result (out.new ≡ passed_last N.does (parts nodes.old ended.old) out.old) }
{
    for k in 0..nodes.len() {
        end(&mut nodes[k], &mut ended[k], out)?;
    }
    Ok(())
}
