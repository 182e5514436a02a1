// The core of a network.
ghost use Rattle.std.specs.Prelude.{◌≡◌, ◌≤◌, ◌+◌, [], true, false, length, sum_by, IfOk};
ghost use Rattle.ff_rec.specs.Weights.{Same};
ghost use Rattle.ff_node.specs.Behaviour.{node_rejected};
ghost use Rattle.ff_node.specs.Comb.{comb_node};
ghost use Rattle.ff_node.specs.Sends.{counted};
ghost use Rattle.ff_net.specs.Forms.{has_copies, has_wrap};
ghost use Rattle.ff_net.specs.Meaning.{mean_rejected, mean_rejected_count, Answers};
ghost use Rattle.ff_net.specs.Nodes.{nodes_in};
ghost use Rattle.ff_net.specs.Tree.{tree_of};
ghost use Rattle.ff_plan.specs.Histories.{group_of};
ghost use Rattle.ff_port.specs.Queues.{put_of};
ghost use Rattle.ff_steps.specs.Core.{edge, is_short, all_ended, taken_rejects, all_rejects, IsSound};
ghost use Rattle.ff_steps.specs.Events.{Follows};
ghost use Rattle.ff_steps.specs.NetCores.{opened_net, IsOpening, IsGood, IsNetCore, TellsOver};
ghost use Rattle.ff_steps.specs.NetUnits.{net_does, any_over};
ghost use Rattle.ff_steps.specs.OverEdges.{LogsAreRight};
ghost use Rattle.ff_steps.specs.Rejects.{Hands};

use crate::NetUnit;
use crate::ends::any_over;
use crate::net_core::Core;
use crate::opening::{queues, rows};
use crate::schedule::run_schedule;
use crate::units::make_units;
use ff_net::Checked;
use ff_net::laws::checked_networks_are_good;
use ff_node::{Node, Records};
use ff_plan::laws::{cut_runs, each_task_is_done_once, whole_runs};
use ff_plan::{Queue, each_edge_has_two_ends, plan};
use ff_rec::{NoMemory, Record};
use std::alloc::Global;

/// The units of a network over plain queues, which step one at a time, in any order, with a feeder of the input and a drainer of
/// the output.
#[derive(Drop)]
pub struct NetCore<N: Node> {
    checked: Checked<N>,
    limit: u64,
    keep: bool,
    core: Core<NetUnit<N>>,
    ghost made: { IsNetCore N.does limit keep (tree_of checked.net) core },
}

impl<N: Node> NetCore<N> {
    /// A network before its first event. Each queue holds `cap` messages, and where records are handed out on demand one. A wrap
    /// may have `limit` tasks. The units keep their rejects where `keep` holds.
    pub fn new(
        alloc: Global,
        checked: Checked<N>,
        cap: u32,
        limit: u64,
        keep: bool,
        input: Records,
    ) -> Result<NetCore<N>, NoMemory>
        requires low { 1 ≤ cap }
        requires high { cap ≤ 4096 }
        ensures opened { IfOk result (λ c. c.core
            ≡ opened_net N.does limit keep (tree_of checked.net) cap input) }
        ensures given { IfOk result (λ c. (c.checked ≡ checked)
            × (c.limit ≡ limit) × (c.keep ≡ keep)) }
        ensures opening { IfOk result (λ c. IsOpening N.does c.limit c.keep (tree_of c.checked.net) c.core) }
        ensures good { IfOk result (λ c. IsGood N.does limit (tree_of checked.net) c.core) }
        ensures untaken { IfOk result (λ c. taken_rejects (net_does N.does) c.core ≡ []) }
    {
        checked_networks_are_good(&checked);
        each_edge_has_two_ends(&checked);
        cut_runs(&checked);
        let units = make_units(alloc, &checked, limit, keep)?;
        let plan = plan(alloc, &checked, cap, Queue::Ring)?;
        let edges = queues(alloc, plan.edges())?;
        let rows = rows(alloc, plan.units())?;
        let core = Core::start(alloc, units, rows, edges, input);
        Ok(NetCore {
            checked,
            limit,
            keep,
            core,
        })
    }

    /// One step of each named party in turn: the units by their numbers in the plan, then the feeder, then the drainer. A number
    /// that names none does nothing. It answers whether all have ended. Whatever the schedule is, the output is the first of an
    /// answer at each moment, if no wrap is over its limit for this input. Once all have ended, and memory was never short, a unit
    /// is over exactly where a wrap is; and where none is, the output and the rejects are those of the network, and by the log
    /// of each wrap's master each of its tasks was done once.
    pub fn run_schedule(&mut self, schedule: &[u32]) -> bool
        ensures follows { Follows (net_does N.does) (IsGood N.does self.old.limit (tree_of self.old.checked.net))
            schedule.now self.old.core self.new.core }
        ensures same { (self.new.checked ≡ self.old.checked)
            × (self.new.limit ≡ self.old.limit) × (self.new.keep ≡ self.old.keep) }
        ensures input { self.new.core.input ≡ self.old.core.input }
        ensures ended { result ≡ all_ended (net_does N.does) self.new.core }
        ensures taken { taken_rejects (net_does N.does) self.new.core
            ≡ taken_rejects (net_does N.does) self.old.core }
        ensures over { result ≡ true → is_short (net_does N.does) self.new.core ≡ false
            → TellsOver N.does self.new.limit (tree_of self.new.checked.net)
            self.new.core.input self.new.core.units }
        ensures tasks { result ≡ true → is_short (net_does N.does) self.new.core ≡ false
            → LogsAreRight N.does self.new.limit (tree_of self.new.checked.net)
            self.new.core.units (λ e. put_of (edge self.new.core e)) }
        ensures answers { result ≡ true → is_short (net_does N.does) self.new.core ≡ false
            → any_over self.new.core.units ≡ false → Answers N.does self.new.limit (tree_of self.new.checked.net)
            self.new.core.input self.new.core.drainer.output }
        ensures rejects { result ≡ true → is_short (net_does N.does) self.new.core ≡ false
            → any_over self.new.core.units ≡ false
            → counted (sum_by (net_does N.does).rejects self.new.core.units)
            ≡ mean_rejected_count N.does self.new.limit (tree_of self.new.checked.net) self.new.core.input }
        ensures held { result ≡ true → is_short (net_does N.does) self.new.core ≡ false
            → any_over self.new.core.units ≡ false → self.new.keep ≡ true
            → Same (all_rejects (net_does N.does) self.new.core)
            (mean_rejected N.does self.new.limit (tree_of self.new.checked.net) self.new.core.input) }
        ensures held_of_one { result ≡ true → is_short (net_does N.does) self.new.core ≡ false
            → self.new.keep ≡ true → length self.new.core.units ≡ 1
            → all_rejects (net_does N.does) self.new.core
            ≡ node_rejected (comb_node N.does)
            (group_of N.does (tree_of self.new.checked.net)) self.new.core.input }
        ensures held_of_node { result ≡ true → is_short (net_does N.does) self.new.core ≡ false
            → self.new.keep ≡ true → has_copies (tree_of self.new.checked.net) ≡ false
            → length (nodes_in (tree_of self.new.checked.net)) ≡ 1
            → all_rejects (net_does N.does) self.new.core
            ≡ mean_rejected N.does self.new.limit (tree_of self.new.checked.net) self.new.core.input }
    {
        checked_networks_are_good(&self.checked);
        whole_runs(&self.checked);
        each_task_is_done_once(&self.checked);
        cut_runs(&self.checked);
        run_schedule(&mut self.core, schedule)
    }

    /// How many parties a schedule may name: its units, the feeder and the drainer.
    pub fn parties(&self) -> u32
        ensures { result ≡ length self.now.core.units + 2 }
    {
        self.core.parties()
    }

    /// What the drainer kept.
    pub fn output(&self) -> &Records
        ensures { result.now ≡ self.now.core.drainer.output }
    {
        self.core.output()
    }

    /// What the drainer kept, where the units aren't needed any more.
    pub fn into_output(self) -> Records
        ensures { result ≡ self.core.drainer.output }
    {
        self.core.into_output()
    }

    /// Whether a unit is over: more tasks came to a wrap than the limit allows. A network without a wrap never is.
    pub fn over(&self) -> bool
        ensures over { result ≡ any_over self.now.core.units }
        ensures never { has_wrap (tree_of self.now.checked.net) ≡ false → result ≡ false }
    {
        any_over(self.core.units())
    }

    /// Whether memory was short: a unit ended otherwise than by Eos, or the feeder or the drainer was refused memory.
    pub fn short_of_memory(&self) -> bool
        ensures { result ≡ is_short (net_does N.does) self.now.core }
    {
        self.core.short_of_memory()
    }

    /// How many records the units rejected, up to 2^64 - 1.
    pub fn rejected(&self) -> u64
        ensures { result ≡ counted (sum_by (net_does N.does).rejects self.now.core.units) }
    {
        self.core.rejected()
    }

    /// The first reject of the lowest unit that holds one, which is taken out.
    pub fn take_reject(&mut self) -> Option<Record>
        ensures handed { Hands (net_does N.does) self.old.core.units result self.new.core.units }
        ensures others { self.new.core ≡ record self.old.core { units = self.new.core.units } }
        ensures same { (self.new.checked ≡ self.old.checked)
            × (self.new.limit ≡ self.old.limit) × (self.new.keep ≡ self.old.keep) }
        ensures sound { IsSound (net_does N.does) self.new.core }
    {
        self.core.take_reject()
    }
}
