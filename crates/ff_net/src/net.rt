// The forms of networks.
ghost use Rattle.std.specs.Prelude.{◌≡◌};

use ff_node::Cmp;
use ff_rec::Record;

/// How a farm deals its records out to its workers.
#[derive(Clone, Copy, Debug, PartialEq, Eq)]
pub enum Sched {
    /// Round robin.
    Rr,
    /// On demand: to a worker that has room.
    Od,
}

/// How a record goes from the left set of an all-to-all to the right one.
#[derive(Clone, Copy, Debug, PartialEq, Eq)]
pub enum Route {
    /// Round robin.
    Rr,
    /// On demand: to a node that has room.
    Od,
    /// By the content of this field, counted from 1.
    By(u32),
}

/// A test of one field of a record, counted from 1. It is met where the field is there, is a number, and stands to
/// `value` as `cmp` says.
#[derive(Clone, Copy, Debug, PartialEq, Eq)]
pub struct Test {
    pub field: u32,
    pub cmp: Cmp,
    pub value: i64,
}

impl Test {
    ghost use Rattle.std.specs.Prelude.{◌≡◌};
    ghost use Rattle.ff_net.specs.Levels.{meets};

    /// Whether a record meets it.
    pub fn is_met(&self, r: &Record) -> bool
        ensures { result ≡ meets self.now r.now }
    {
        match r.number(self.field as usize) {
            Some(n) => self.cmp.holds(n, self.value),
            None => false,
        }
    }
}

/// The version of a description.
#[derive(Clone, Copy, Debug, PartialEq, Eq)]
pub enum Version {
    One,
    Two,
}

/// A network of nodes.
#[derive(Drop)]
pub enum Net<N> {
    /// One node.
    Leaf(N),
    /// Networks one behind another.
    Pipe(Vec<Net<N>>),
    /// Nodes one behind another that run as one.
    Comb(Vec<Net<N>>),
    /// Copies of a worker, whose answers come in any order.
    Farm {
        workers: u32,
        sched: Sched,
        worker: Box<Net<N>>,
    },
    /// Copies of a worker, whose answers come in the order of their records.
    OFarm {
        workers: u32,
        sched: Sched,
        worker: Box<Net<N>>,
    },
    /// A set of copies of one node before a set of copies of another, each of the first joined to each of the second.
    A2a {
        left: u32,
        left_node: Box<Net<N>>,
        route: Route,
        right: u32,
        right_node: Box<Net<N>>,
    },
    /// Copies of a worker that gets those of its records back that meet the test.
    Wrap {
        workers: u32,
        worker: Box<Net<N>>,
        test: Test,
    },
}
