// What no clause says: that memory is there, and that the definitions mean these streams. The ports find nothing, and no room, at
// random, so that each case is tried under many orders of what comes and goes.
ghost use Rattle.std.specs.Prelude.{◌≡◌, [], ◌∷◌, length, map, replicate};
ghost use Rattle.ff_port.specs.Queues.{put_of};
ghost use Rattle.ff_unit.specs.Deals.{deal_does};
ghost use Rattle.ff_unit.specs.Units.{Ran};
ghost use Rattle.ff_order.specs.OMerges.{omerge_does};

use ff_order::{ODeal, OMerge};
use ff_port::{End, Ports, Step};
use ff_rec::Record;
use ff_test_ports::{Fickle, QueuePorts, ports_of, scripts_at};
use ff_unit::Unit;
use std::alloc::Global;
use std::process::Abort;
use std::test::Fail;

// How many orders each case is tried under.
const ORDERS: u32 = 200;

// Steps until the unit ends.
fn run<U: Unit, P: Ports<Record>>(unit: &mut U, ports: &mut P) -> Option<End>
    requires { Ran U.does unit.old (P.gots ports.old) (P.puts ports.old) }
{
    for _ in 0..10_000 {
        if let Step::Ended(end) = unit.step(ports) {
            return Some(end);
        }
    }
    None
}

// What such ins make of an end.
fn end_of(wanted: &str) -> End {
    if wanted.ends_with("! ") {
        End::Abort
    } else {
        End::Eos
    }
}

// What a merge of these ins puts, and how it ends.
fn merged(
    alloc: Global,
    mut merge: OMerge,
    scripts: &[&str],
    seed: u32,
) -> Result<(String, Option<End>), Fail>
    requires { Ran omerge_does merge (replicate (length scripts.now) []) ([] ∷ []) }
{
    let mut ports = ports_of(alloc, scripts, 1, seed)?;
    let ended = run(&mut merge, &mut ports);
    Ok((scripts_at(alloc, ports)?, ended))
}

// An ordered merge of these ins puts this and ends so.
fn merges(
    rt: &impl Abort,
    alloc: Global,
    merge: OMerge,
    scripts: &[&str],
    seed: u32,
    wanted: &str,
) -> Result<(), Fail>
    requires { Ran omerge_does merge (replicate (length scripts.now) []) ([] ∷ []) }
{
    let end = Some(end_of(wanted));
    let (out, ended) = merged(alloc, merge, scripts, seed)?;
    assert_eq!(rt; (out.as_str(), ended), (wanted, end), "{scripts:?} {seed}");
    Ok(())
}

// Under all orders two ins are merged so in turn.
fn merges_in_turn(
    rt: &impl Abort,
    alloc: Global,
    scripts: [&str; 2],
    wanted: &str,
) -> Result<(), Fail> {
    for seed in 1..=ORDERS {
        merges(rt, alloc, OMerge::in_turn(2), &scripts, seed, wanted)?;
    }
    Ok(())
}

// Under all orders one in is merged so.
fn merges_one(rt: &impl Abort, alloc: Global, script: &str, wanted: &str) -> Result<(), Fail> {
    for seed in 1..=ORDERS {
        merges(rt, alloc, OMerge::in_turn(1), &[script], seed, wanted)?;
    }
    Ok(())
}

// Groups that are empty, long and cut off; ins that end early, in a group, and by Abort. The rest of every in is read.
#[test]
fn groups_come_in_turn(rt: HostRuntime) -> Result<(), Fail> {
    let cases = [
        (["ab||.", "|cde|."], "abcde. "),
        (["a|b!", "c|d|."], "acb! "),
        (["a|.", "b|c|."], "ab. "),
        ([".", "b|c|."], ". "),
        (["a|.", "!"], "a! "),
        (["a|2b|.", "c|d|."], "acbd. "),
        (["ab.", "cd|."], "ab. "),
    ];
    for (scripts, wanted) in cases {
        merges_in_turn(&rt, rt.alloc(), scripts, wanted)?;
    }
    merges_one(&rt, rt.alloc(), "ab||c|.", "abc. ")
}

// Under all orders two ins are merged so by the picks of a third.
fn merges_by_pick(
    rt: &impl Abort,
    alloc: Global,
    scripts: [&str; 3],
    wanted: &str,
) -> Result<(), Fail> {
    for seed in 1..=ORDERS {
        merges(rt, alloc, OMerge::by_pick(2), &scripts, seed, wanted)?;
    }
    Ok(())
}

// Under all orders one in is merged so by the picks of a second.
fn picks_one(rt: &impl Abort, alloc: Global, scripts: [&str; 2], wanted: &str) -> Result<(), Fail> {
    for seed in 1..=ORDERS {
        merges(rt, alloc, OMerge::by_pick(1), &scripts, seed, wanted)?;
    }
    Ok(())
}

// The last in tells whose group comes next; a Pick that names no in is dropped.
#[test]
fn groups_come_as_they_are_picked(rt: HostRuntime) -> Result<(), Fail> {
    let cases = [
        (["a||.", "bcd|e|.", "10010."], "bcdae. "),
        (["a|b!", "c|d|.", "010."], "acb! "),
        (["a|.", "b|.", "0271."], "ab. "),
        (["a|.", "b|.", "1."], "b. "),
        (["a|.", "b|.", "!"], "! "),
        (["a.", "b|.", "01."], "a. "),
        (["a|.", "b|.", "."], ". "),
    ];
    for (scripts, wanted) in cases {
        merges_by_pick(&rt, rt.alloc(), scripts, wanted)?;
    }
    picks_one(&rt, rt.alloc(), ["ab||c|.", "000."], "abc. ")
}

// As many ins as may be, of which two hold records.
#[test]
fn sixty_four_ins(rt: HostRuntime) -> Result<(), Fail> {
    let mut scripts = ["|."; 64];
    scripts[0] = "a|c|.";
    scripts[63] = "b|.";
    for seed in 1..=20 {
        let merge = OMerge::in_turn(64);
        merges(&rt, rt.alloc(), merge, &scripts, seed, "abc. ")?;
    }
    Ok(())
}

// An ordered deal to two outs: to two places in turn, or to one on demand.
fn deal_of(on_demand: bool) -> ODeal
    ensures { Ran deal_does result ([] ∷ []) (replicate 2 []) }
{
    if on_demand {
        ODeal::on_demand(1)
    } else {
        ODeal::strict(2)
    }
}

// How such a deal between these ports ends.
fn ended(on_demand: bool, ports: &mut Fickle<QueuePorts>) -> Option<End>
    requires gots { map (λ q. q.got) ports.old.ports.ins.items ≡ [] ∷ [] }
    requires puts { map (λ q. put_of q) ports.old.ports.outs.items ≡ replicate 2 [] }
{
    let mut deal = deal_of(on_demand);
    run(&mut deal, ports)
}

// What such a deal of this in puts, and how it ends.
fn dealt(
    alloc: Global,
    on_demand: bool,
    script: &str,
    seed: u32,
) -> Result<(String, Option<End>), Fail> {
    let mut ports = ports_of(alloc, &[script], 2, seed)?;
    let end = ended(on_demand, &mut ports);
    Ok((scripts_at(alloc, ports)?, end))
}

// Such a deal of this in puts this, and ends by Eos.
fn deals(
    rt: &impl Abort,
    alloc: Global,
    on_demand: bool,
    script: &str,
    seed: u32,
    wanted: &str,
) -> Result<(), Fail> {
    let (outs, ended) = dealt(alloc, on_demand, script, seed)?;
    assert_eq!(rt;
        (outs.as_str(), ended),
        (wanted, Some(End::Eos)),
        "{script} {seed}"
    );
    Ok(())
}

// An ordered deal in turn, and one on demand.
#[test]
fn records_are_dealt_as_groups(rt: HostRuntime) -> Result<(), Fail> {
    for seed in 1..=ORDERS {
        deals(&rt, rt.alloc(), false, "abc.", seed, "a|c|. b|. ")?;
        deals(&rt, rt.alloc(), true, "ab.", seed, "a|b|. 00. ")?;
    }
    Ok(())
}
