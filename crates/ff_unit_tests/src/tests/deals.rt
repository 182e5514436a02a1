// A deal gives each record to one of its outs.
ghost use Rattle.std.specs.Prelude.{◌≡◌, [], ◌∷◌, map, replicate, IfOk};
ghost use Rattle.ff_port.specs.Queues.{put_of};
ghost use Rattle.ff_unit.specs.Deals.{deal_does, deal_outs};
ghost use Rattle.ff_unit.specs.Units.{Ran};

use super::{ORDERS, run};
use ff_port::End;
use ff_test_ports::{Fickle, QueuePorts, ports_of, scripts_at};
use ff_unit::{Deal, Dealing};
use std::alloc::Global;
use std::process::Abort;
use std::str::Chars;
use std::test::Fail;

// A deal of this way between so many places.
fn deal_of(way: Dealing, places: u32) -> Result<Deal, Fail>
    ensures { IfOk result (λ d. Ran deal_does d ([] ∷ []) (replicate (deal_outs way places) [])) }
{
    if places < 1 || 64 < places {
        Err("so many places aren't dealt to")?;
    }
    Ok(match way {
        Dealing::InTurn => Deal::strict(places),
        Dealing::OnDemand => Deal::on_demand(places),
        Dealing::ByKey(field) => Deal::by_key(field, places),
        Dealing::GroupsInTurn => Deal::strict_groups(places),
        Dealing::GroupsOnDemand => Deal::groups_on_demand(places),
    })
}

// How many outs such a deal has.
fn outs_of(way: Dealing, places: u32) -> usize
    ensures { result ≡ deal_outs way places }
{
    match way {
        Dealing::GroupsOnDemand => places as usize + 1,
        _ => places as usize,
    }
}

// How such a deal between these ports ends.
fn ended(way: Dealing, places: u32, ports: &mut Fickle<QueuePorts>) -> Result<Option<End>, Fail>
    requires gots { map (λ q. q.got) ports.old.ports.ins.items ≡ [] ∷ [] }
    requires puts { map (λ q. put_of q) ports.old.ports.outs.items ≡ replicate (deal_outs way places) [] }
{
    let mut deal = deal_of(way, places)?;
    Ok(run(&mut deal, ports))
}

// What a deal of this in puts, out by out, and how it ends.
fn dealt(
    alloc: Global,
    way: Dealing,
    places: u32,
    script: &str,
    seed: u32,
) -> Result<(String, Option<End>), Fail> {
    let mut ports = ports_of(alloc, &[script], outs_of(way, places), seed)?;
    let end = ended(way, places, &mut ports)?;
    Ok((scripts_at(alloc, ports)?, end))
}

// How a deal ends whose in ends so.
fn end_of(script: &str) -> End {
    if script.ends_with('!') {
        End::Abort
    } else {
        End::Eos
    }
}

// Under one order a deal puts just this.
fn deals_once(
    rt: &impl Abort,
    alloc: Global,
    way: Dealing,
    places: u32,
    script: &str,
    seed: u32,
    wanted: &str,
) -> Result<(), Fail> {
    let end = Some(end_of(script));
    let (outs, ended) = dealt(alloc, way, places, script, seed)?;
    assert_eq!(rt;
        (outs.as_str(), ended),
        (wanted, end),
        "{way:?} {script} {seed}"
    );
    Ok(())
}

// Under all orders a deal puts just this.
fn deals_so(
    rt: &impl Abort,
    alloc: Global,
    way: Dealing,
    places: u32,
    script: &str,
    wanted: &str,
) -> Result<(), Fail> {
    for seed in 1..=ORDERS {
        deals_once(rt, alloc, way, places, script, seed, wanted)?;
    }
    Ok(())
}

// Each of these ways, places and ins gives these outs.
fn each_deals_so(
    rt: &impl Abort,
    alloc: Global,
    cases: &[(Dealing, u32, &str, &str)],
) -> Result<(), Fail> {
    for (way, places, script, wanted) in cases {
        deals_so(rt, alloc, *way, *places, script, wanted)?;
    }
    Ok(())
}

// Eos and Abort come at each moment; Marks and Picks are dropped. The places of the keys a, b, c and d are 1, 2, 0 and 1.
#[test]
fn each_way_under_all_orders(rt: HostRuntime) -> Result<(), Fail> {
    let cases = [
        (Dealing::InTurn, 3, "abcdefg.", "adg. be. cf. "),
        (Dealing::InTurn, 3, "abcd!", "ad! b! c! "),
        (Dealing::InTurn, 3, ".", ". . . "),
        (Dealing::InTurn, 3, "!", "! ! ! "),
        (Dealing::InTurn, 2, "a|b7c.", "ac. b. "),
        (Dealing::InTurn, 1, "abc.", "abc. "),
        (Dealing::ByKey(1), 3, "abcdab.", "c. ada. bb. "),
        (Dealing::ByKey(1), 3, "abc!", "c! a! b! "),
        (Dealing::ByKey(2), 3, "abc.", "abc. . . "),
        (Dealing::OnDemand, 1, "abc.", "abc. "),
        (Dealing::OnDemand, 1, "ab!", "ab! "),
        (Dealing::GroupsInTurn, 2, "abc.", "a|c|. b|. "),
        (Dealing::GroupsInTurn, 2, "a!", "a|! ! "),
        (Dealing::GroupsOnDemand, 1, "ab.", "a|b|. 00. "),
        (Dealing::GroupsOnDemand, 1, "a!", "a|! 0! "),
    ];
    each_deals_so(&rt, rt.alloc(), &cases)
}

// A character stands so many times at the outs.
fn has(rt: &impl Abort, outs: &str, letter: char, count: usize) {
    let found = outs.chars().filter(|c| *c == letter).count();
    assert_eq!(rt; found, count, "{letter}: {outs}");
}

// A deal to three outs that ends by Eos: what it puts.
fn dealt_to_three(rt: &impl Abort, alloc: Global, way: Dealing, seed: u32) -> Result<String, Fail> {
    let (outs, end) = dealt(alloc, way, 3, "abcdefgh.", seed)?;
    assert_eq!(rt; end, Some(End::Eos), "{seed}");
    Ok(outs)
}

// Each record stands once on some out.
fn has_each_once(rt: &impl Abort, outs: &str) {
    for letter in "abcdefgh".chars() {
        has(rt, outs, letter, 1);
    }
    has(rt, outs, '.', 3);
}

// Read by the picks, the outs give the in again.
fn has_picks(rt: &impl Abort, alloc: Global, outs: &str) -> Result<(), Fail> {
    has(rt, outs, '|', 8);
    let letters = read_by_picks(alloc, outs)?;
    assert_eq!(rt; letters.as_str(), "abcdefgh", "{outs}");
    Ok(())
}

// Each record stands once on some out, and in groups the picks tell on which: read by them, the outs give the in again.
#[test]
fn on_demand_each_record_goes_to_one_out(rt: HostRuntime) -> Result<(), Fail> {
    for seed in 1..=ORDERS {
        let outs = dealt_to_three(&rt, rt.alloc(), Dealing::OnDemand, seed)?;
        has_each_once(&rt, &outs);
        let outs = dealt_to_three(&rt, rt.alloc(), Dealing::GroupsOnDemand, seed)?;
        has_picks(&rt, rt.alloc(), &outs)?;
    }
    Ok(())
}

// The records of three outs in the order of the picks on a fourth.
fn read_by_picks(alloc: Global, outs: &str) -> Result<String, Fail> {
    let mut lists = outs.split(' ');
    let (Some(first), Some(second), Some(third), Some(picks)) = (
        lists.next(),
        lists.next(),
        lists.next(),
        lists.next(),
    ) else {
        return Err("four outs are wanted")?;
    };
    let (mut first, mut second, mut third) = (first.chars(), second.chars(), third.chars());
    let mut letters = String::new(alloc);
    for pick in picks.chars() {
        let letter = match pick {
            '0' => next_group(&mut first),
            '1' => next_group(&mut second),
            '2' => next_group(&mut third),
            _ => break,
        };
        if let Some(letter) = letter {
            letters.push(letter)?;
        }
    }
    Ok(letters)
}

// The record of the next group of one record; its Mark goes, too.
fn next_group(out: &mut Chars<'_>) -> Option<char> {
    let letter = out.next();
    out.next();
    letter
}

// Each of 64 outs has a record and its end.
fn has_sixty_four(rt: &impl Abort, outs: &str) {
    let records = outs.chars().filter(|c| c.is_ascii_lowercase()).count();
    assert_eq!(rt; records, 64, "{outs}");
    has(rt, outs, '.', 64);
}

// As many outs as may be, each with a record.
#[test]
fn sixty_four_outs(rt: HostRuntime) -> Result<(), Fail> {
    let script = "abcdefghijklmnopqrstuvwxyzabcdefghijklmnopqrstuvwxyzabcdefghijkl.";
    for way in [Dealing::InTurn, Dealing::GroupsInTurn, Dealing::OnDemand] {
        let (outs, end) = dealt(rt.alloc(), way, 64, script, 1)?;
        assert_eq!(rt; end, Some(End::Eos), "{way:?}");
        has_sixty_four(&rt, &outs);
    }
    Ok(())
}
