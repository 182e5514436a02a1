// Networks, printed.
ghost use Rattle.std.specs.Prelude.{◌≡◌, ◌++◌, OnOk, codes};
ghost use Rattle.ff_net.specs.Tree.{tree_of, trees_of};
ghost use Rattle.ff_text.specs.NetPrinting.{printed_farm, printed_net, printed_parts, printed_described};

mod form_words;
mod plan;

use crate::Described;
use crate::print::form_words::{print_front, print_middle, print_side, print_test};
use ff_net::{Net, Sched, Version};
use ff_ops::Op;
use ff_rec::NoMemory;
pub use plan::print_plan;

/// Appends the printed form of a network. Where memory runs out some of it may have been appended.
#[cycle(printing)]
#[tactic(auto, using(ff_net::specs::Tree::tree_forms))]
pub fn print_net(net: &Net<Op>, into: &mut Vec<u8>) -> Result<(), NoMemory>
    ensures { OnOk result (into.new.items ≡ into.old.items ++ printed_net (tree_of net.now)) }
{
    match net {
        Net::Leaf(node) => node.print(into)?,
        Net::Pipe(parts) => print_parts(b"pipe(", parts, into)?,
        Net::Comb(parts) => print_parts(b"comb(", parts, into)?,
        Net::Farm {
            workers,
            sched,
            worker,
        } => print_farm(b"farm", *workers, *sched, worker, into)?,
        Net::OFarm {
            workers,
            sched,
            worker,
        } => print_farm(b"ofarm", *workers, *sched, worker, into)?,
        Net::A2a {
            left,
            left_node,
            route,
            right,
            right_node,
        } => {
            print_side(b"a2a", *left, into)?;
            print_net(left_node, into)?;
            print_middle(*route, *right, into)?;
            print_net(right_node, into)?;
            into.push(b')')?;
        }
        Net::Wrap {
            workers,
            worker,
            test,
        } => {
            print_side(b"wrap", *workers, into)?;
            print_net(worker, into)?;
            print_test(test, into)?;
        }
    }
    Ok(())
}

/// Appends the printed form of a network, behind `ffrun2 ` where the version is Two. Where memory runs
/// out some of it may have been appended.
pub fn print_described(described: &Described, into: &mut Vec<u8>) -> Result<(), NoMemory>
    ensures { OnOk result (into.new.items ≡ into.old.items
        ++ printed_described described.now.version (tree_of described.now.net)) }
{
    if let Version::Two = described.version {
        into.extend_from_slice(b"ffrun2 ")?;
    }
    print_net(&described.net, into)
}

// A pipe or comb: its word with `(`, its parts, and `)`.
#[cycle(printing)]
#[tactic(auto, using(ff_net::specs::Tree::tree_forms))]
fn print_parts(word: &[u8], parts: &[Net<Op>], into: &mut Vec<u8>) -> Result<(), NoMemory>
    ensures { OnOk result
        (into.new.items ≡ into.old.items ++ (word.now ++ printed_parts (trees_of parts.now))) }
{
    into.extend_from_slice(word)?;
    let mut first = true;
    for part in parts {
        if !first {
            into.extend_from_slice(b", ")?;
        }
        first = false;
        print_net(part, into)?;
    }
    into.push(b')')?;
    Ok(())
}

// A farm with its worker.
#[cycle(printing)]
#[tactic(auto, using(ff_net::specs::Tree::tree_forms))]
fn print_farm(
    word: &[u8],
    workers: u32,
    sched: Sched,
    worker: &Net<Op>,
    into: &mut Vec<u8>,
) -> Result<(), NoMemory>
    ensures { OnOk result (into.new.items ≡ into.old.items
        ++ (printed_farm word.now workers sched
        ++ (printed_net (tree_of worker.now) ++ codes ")"))) }
{
    print_front(word, workers, sched, into)?;
    print_net(worker, into)?;
    into.push(b')')?;
    Ok(())
}
