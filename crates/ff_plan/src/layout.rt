// A plan: its units and its edges.
ghost use Rattle.std.specs.Prelude.{◌≡◌};

use crate::{EdgeList, Party, Queue, UnitKind};
use ff_net::Path;
use std::marker::Model;

/// An edge: a channel with one writer and one reader.
#[derive(Clone, Copy, Debug, PartialEq, Eq)]
pub struct Edge {
    pub writer: Party,
    pub reader: Party,
    /// How many messages a ring of it holds.
    pub cap: u32,
    pub queue: Queue,
}

/// A unit: what it does, the edges that it reads and those that it writes, and its place. That is the place of the leaf or
/// comb of a stage or a worker, and of the form for every other unit.
#[derive(Debug, Drop)]
pub struct UnitRow {
    pub kind: UnitKind,
    pub ins: EdgeList,
    pub outs: EdgeList,
    pub path: Path,
}

impl Model for UnitRow {
    ghost use Rattle.ff_plan.specs.Rows.{Row};

    ghost Value = { Row };

    ghost view = { λ row. record { kind = row.kind; ins = row.ins; outs = row.outs; place = row.path } };
}

/// The plan of a network: all its units and all its edges, by their numbers.
#[derive(Debug, Drop)]
pub struct Layout {
    pub(crate) units: Vec<UnitRow>,
    pub(crate) edges: Vec<Edge>,
}

impl Model for Layout {
    ghost use Rattle.ff_plan.specs.Plans.{Plan};

    ghost Value = { Plan };

    ghost view = { λ plan. record { units = plan.units.items; edges = plan.edges.items } };
}

impl Layout {
    /// The units. Unit 0 stands first.
    pub fn units(&self) -> &[UnitRow]
        ensures { result.now ≡ self.now.units }
    {
        &self.units
    }

    /// The edges. The caller writes edge 0 and reads edge 1.
    pub fn edges(&self) -> &[Edge]
        ensures { result.now ≡ self.now.edges }
    {
        &self.edges
    }

    /// The units and the edges.
    pub fn into_parts(self) -> (Vec<UnitRow>, Vec<Edge>)
        ensures units { result.0.items ≡ self.units }
        ensures edges { result.1.items ≡ self.edges }
    {
        (self.units, self.edges)
    }
}
