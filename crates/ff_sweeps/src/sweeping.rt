// Sweeps over the parties of a network's core.
ghost use Rattle.std.specs.Prelude.{◌≡◌, true, length};
ghost use Rattle.ff_net.specs.Forms.{sweeps};
ghost use Rattle.ff_net.specs.Tree.{tree_of};
ghost use Rattle.ff_steps.specs.Core.{all_ended, taken_rejects};
ghost use Rattle.ff_steps.specs.Events.{Follows};
ghost use Rattle.ff_steps.specs.NetCores.{IsGood, IsOpening};
ghost use Rattle.ff_steps.specs.NetUnits.{net_does};
ghost use Rattle.ff_sweeps.specs.Schedules.{sweep};
ghost use Rattle.ff_sweeps.specs.Swept.{SweptAs};

use ff_node::Node;
use ff_steps::NetCore;

/// How sweeps over a network ended.
#[derive(Clone, Copy, PartialEq, Eq, Debug)]
pub enum Sweeps {
    /// All parties have ended after so many sweeps, counted up to 2^64 - 1.
    All(u64),
    /// Memory was short.
    NoMemory,
}

/// Sweeps over a network in its opening state until all parties have ended or memory is short. It takes no memory but what the
/// parties take.
pub fn run_sweeps<N: Node>(core: &mut NetCore<N>) -> Sweeps
    requires opening { IsOpening N.does core.old.limit core.old.keep (tree_of core.old.checked.net) core.old.core }
    requires plain { sweeps (tree_of core.old.checked.net) ≡ true }
    ensures swept { SweptAs N.does core.old.limit (tree_of core.old.checked.net)
        result core.old.core core.new.core }
    ensures same { (core.new.checked ≡ core.old.checked)
        × (core.new.limit ≡ core.old.limit) × (core.new.keep ≡ core.old.keep) }
    ensures input { core.new.core.input ≡ core.old.core.input }
    ensures taken { taken_rejects (net_does N.does) core.new.core
        ≡ taken_rejects (net_does N.does) core.old.core }
{
    let mut made: u64 = 0;
    loop {
        let ended = sweep_once(core);
        made = made.saturating_add(1);
        if ended {
            return Sweeps::All(made);
        }
        if core.short_of_memory() {
            return Sweeps::NoMemory;
        }
    }
}

// One step of each unit in the plan's order, then of the feeder, then of the drainer.
fn sweep_once<N: Node>(core: &mut NetCore<N>) -> bool
    ensures follows { Follows (net_does N.does) (IsGood N.does core.old.limit (tree_of core.old.checked.net))
        (sweep (length core.old.core.units)) core.old.core core.new.core }
    ensures same { (core.new.checked ≡ core.old.checked)
        × (core.new.limit ≡ core.old.limit) × (core.new.keep ≡ core.old.keep) }
    ensures input { core.new.core.input ≡ core.old.core.input }
    ensures ended { result ≡ all_ended (net_does N.does) core.new.core }
    ensures taken { taken_rejects (net_does N.does) core.new.core
        ≡ taken_rejects (net_does N.does) core.old.core }
{
    let mut ended = core.run_schedule(&[]);
    for p in 0..core.parties() {
        ended = core.run_schedule(&[p]);
    }
    ended
}
