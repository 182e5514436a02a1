// Plans, printed.
ghost use Rattle.std.specs.Prelude.{◌≡◌, ◌<◌, ◌^◌, ◌++◌, OnOk};
ghost use Rattle.ff_net.specs.At.{net_at};
ghost use Rattle.ff_net.specs.Tree.{tree_of};
ghost use Rattle.ff_text.specs.PlanText.{kind_field, kind_word, printed_edges, printed_label, printed_node, printed_ports, printed_unit, printed_units, printed_work};

use super::form_words::print_count;
use super::print_net;
use ff_net::{Checked, Net, Path};
use ff_ops::{Arg, Op};
use ff_plan::{Layout, UnitKind, UnitRow};
use ff_rec::NoMemory;

/// Appends a plan of this network, a line for each unit: its number, its kind, its ins, `>`, its outs, and for a stage or a worker
/// `:` and its node or comb. Where memory runs out some of it may have been appended.
pub fn print_plan(plan: &Layout, checked: &Checked<Op>, into: &mut Vec<u8>) -> Result<(), NoMemory>
    ensures { OnOk result (into.new.items ≡ into.old.items
        ++ printed_units (tree_of checked.now.net) 0 plan.now.units) }
{
    print_units(plan.units(), checked.net(), into)
}

// The units of a plan of this network.
fn print_units(units: &[UnitRow], net: &Net<Op>, into: &mut Vec<u8>) -> Result<(), NoMemory>
    ensures { OnOk result
        (into.new.items ≡ into.old.items ++ printed_units (tree_of net.now) 0 units.now) }
{
    for (k, unit) in units.iter().enumerate() {
        print_unit(k, unit, net, into)?;
    }
    Ok(())
}

// Unit `k`.
fn print_unit(k: usize, unit: &UnitRow, net: &Net<Op>, into: &mut Vec<u8>) -> Result<(), NoMemory>
    requires { k < 2 ^ 63 }
    ensures { OnOk result (into.new.items ≡ into.old.items ++ printed_unit (tree_of net.now) k unit.now) }
{
    print_label(k, unit.kind, into)?;
    print_ports(unit, into)?;
    print_work(unit, net, into)?;
    into.push(b'\n')?;
    Ok(())
}

// The number and the kind of a unit.
fn print_label(k: usize, kind: UnitKind, into: &mut Vec<u8>) -> Result<(), NoMemory>
    requires { k < 2 ^ 63 }
    ensures { OnOk result (into.new.items ≡ into.old.items ++ printed_label k kind) }
{
    Arg::Num(k as i64).print(into)?;
    into.push(b' ')?;
    into.extend_from_slice(kind_word(kind))?;
    print_field(kind, into)
}

// The field of a kind that goes by one.
fn print_field(kind: UnitKind, into: &mut Vec<u8>) -> Result<(), NoMemory>
    ensures { OnOk result (into.new.items ≡ into.old.items ++ kind_field kind) }
{
    match kind {
        UnitKind::DealBy(field) => print_count(field, into),
        _ => Ok(()),
    }
}

// The word of a kind.
fn kind_word(kind: UnitKind) -> &'static [u8]
    ensures { result.now ≡ kind_word kind }
{
    match kind {
        UnitKind::Stage => b"stage",
        UnitKind::DealRr => b"deal-rr",
        UnitKind::DealOd => b"deal-od",
        UnitKind::DealBy(_) => b"deal-by-",
        UnitKind::Merge => b"merge",
        UnitKind::ODealRr => b"odeal-rr",
        UnitKind::ODealOd => b"odeal-od",
        UnitKind::OMergeTurn => b"omerge-turn",
        UnitKind::OMergePick => b"omerge-pick",
        UnitKind::Master => b"master",
        UnitKind::Worker => b"worker",
    }
}

// The ins and the outs of a unit.
fn print_ports(unit: &UnitRow, into: &mut Vec<u8>) -> Result<(), NoMemory>
    ensures { OnOk result (into.new.items ≡ into.old.items ++ printed_ports unit.now) }
{
    print_edges(unit.ins.as_slice(), into)?;
    into.extend_from_slice(b" >")?;
    print_edges(unit.outs.as_slice(), into)
}

// Edges, each behind a space.
fn print_edges(edges: &[u32], into: &mut Vec<u8>) -> Result<(), NoMemory>
    ensures { OnOk result (into.new.items ≡ into.old.items ++ printed_edges edges.now) }
{
    for edge in edges {
        into.push(b' ')?;
        print_count(*edge, into)?;
    }
    Ok(())
}

// What a unit works with: the node or comb at the place of a stage or a worker.
fn print_work(unit: &UnitRow, net: &Net<Op>, into: &mut Vec<u8>) -> Result<(), NoMemory>
    ensures { OnOk result (into.new.items ≡ into.old.items
        ++ printed_work unit.now.kind (net_at (tree_of net.now) unit.now.place)) }
{
    match unit.kind {
        UnitKind::Stage | UnitKind::Worker => print_node(&unit.path, net, into),
        _ => Ok(()),
    }
}

// The node or comb at this place.
fn print_node(place: &Path, net: &Net<Op>, into: &mut Vec<u8>) -> Result<(), NoMemory>
    ensures { OnOk result (into.new.items ≡ into.old.items ++ printed_node (net_at (tree_of net.now) place.now)) }
{
    match net.at(place) {
        Some(node) => {
            into.extend_from_slice(b" : ")?;
            print_net(node, into)
        }
        None => Ok(()),
    }
}
