// The core: units, a feeder and a drainer over plain queues.
ghost use Rattle.std.specs.Prelude.{◌≡◌, ◌≤◌, ◌+◌, ◌&&◌, length, sum_by, is_some, vec_len};
ghost use Rattle.std.specs.List.{list_all};
ghost use Rattle.ff_node.specs.Sends.{counted};
ghost use Rattle.ff_unit.specs.Units.{end_of};
ghost use Rattle.ff_steps.specs.Rejects.{Hands};
ghost use Rattle.ff_steps.specs.Core.{is_short, all_ended, IsSound};
ghost use Rattle.ff_steps.specs.NetCores.{opened_core};

use crate::drainer::Drainer;
use crate::ends::{all_done, any_cut_off};
use crate::feeder::Feeder;
use crate::rejects::{rejected, take_reject};
use crate::row::PortRow;
use ff_node::Records;
use ff_port::PlainQueue;
use ff_rec::Record;
use ff_unit::Unit;
use std::alloc::Global;
use std::marker::Model;

/// Units over plain queues, which step one at a time, in any order. A feeder puts the input on edge 0, and a drainer keeps what
/// comes over edge 1.
#[derive(Drop)]
pub(crate) struct Core<U: Unit> {
    pub(crate) rows: Vec<PortRow>,
    pub(crate) edges: Vec<PlainQueue<Record>>,
    pub(crate) units: Vec<U>,
    pub(crate) feeder: Feeder,
    pub(crate) drainer: Drainer,
}

impl<U: Unit> Model for Core<U> {
    ghost use Rattle.std.specs.Prelude.{◌≤◌, length};
    ghost use Rattle.ff_steps.specs.Core.{CoreState, IsSound};
    ghost use Rattle.ff_steps.specs.Seen.{core_of};

    ghost Value = { CoreState U };

    ghost view = { λ c.
        core_of U.does c.rows.items c.edges.items c.units.items c.feeder c.drainer };

    ghost invariant = { λ c. (length c.units.items ≤ 65536)
        × IsSound U.does
        (core_of U.does c.rows.items c.edges.items c.units.items c.feeder c.drainer) };
}

impl<U: Unit> Core<U> {
    /// These units before their first event.
    pub(crate) fn start(
        alloc: Global,
        units: Vec<U>,
        rows: Vec<PortRow>,
        edges: Vec<PlainQueue<Record>>,
        input: Records,
    ) -> Core<U>
        requires few { vec_len units ≤ 65536 }
        requires sound { IsSound U.does
            (opened_core U.does units.items rows.items edges.items input) }
        ensures { result ≡ opened_core U.does units.items rows.items edges.items input }
    {
        let feeder = Feeder {
            input,
            fed: 0,
            refused: false,
            done: false,
        };
        let drainer = Drainer {
            output: Records::new(alloc),
            refused: false,
            done: false,
        };
        Core {
            rows,
            edges,
            units,
            feeder,
            drainer,
        }
    }

    /// Its units, in their order.
    pub(crate) fn units(&self) -> &[U]
        ensures units { result.now ≡ self.now.units }
        ensures sound { IsSound U.does self.now }
    {
        &self.units
    }

    /// How many parties it has: its units, the feeder and the drainer.
    pub(crate) fn parties(&self) -> u32
        ensures { result ≡ length self.now.units + 2 }
    {
        self.units.len() as u32 + 2
    }

    /// What the drainer kept.
    pub(crate) fn output(&self) -> &Records
        ensures { result.now ≡ self.now.drainer.output }
    {
        &self.drainer.output
    }

    /// What the drainer kept, as its own.
    pub(crate) fn into_output(self) -> Records
        ensures { result ≡ self.drainer.output }
    {
        self.drainer.output
    }

    /// Whether memory was short: a unit ended otherwise than by Eos, or the feeder or the drainer was refused memory.
    pub(crate) fn short_of_memory(&self) -> bool
        ensures { result ≡ is_short U.does self.now }
    {
        any_cut_off(&self.units) || (self.feeder.refused || self.drainer.refused)
    }

    /// How many records the units rejected, up to 2^64 - 1.
    pub(crate) fn rejected(&self) -> u64
        ensures { result ≡ counted (sum_by U.does.rejects self.now.units) }
    {
        rejected(&self.units)
    }

    /// The first reject of the lowest unit that holds one, which is taken out.
    pub(crate) fn take_reject(&mut self) -> Option<Record>
        ensures handed { Hands U.does self.old.units result self.new.units }
        ensures others { self.new ≡ record self.old { units = self.new.units } }
        ensures sound { IsSound U.does self.new }
    {
        take_reject(&mut self.units)
    }

    /// Whether all parties have ended.
    pub(crate) fn all_ended(&self) -> bool
        ensures ended { result ≡ all_ended U.does self.now }
        ensures sound { IsSound U.does self.now }
    {
        self.parties_done()
    }

    // Whether the units, the feeder and the drainer have ended.
    fn parties_done(&self) -> bool
        ensures done { result ≡ (list_all (λ u. is_some (end_of U.does u)) self.now.units
            && (self.now.feeder.done && self.now.drainer.done)) }
        ensures sound { IsSound U.does self.now }
    {
        all_done(&self.units) && (self.feeder.done && self.drainer.done)
    }
}
