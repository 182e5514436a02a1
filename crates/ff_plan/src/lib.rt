//! Plans: the units and edges of a network, and the law that joins them.
#![tactic(auto)]

mod edge_list;
mod edge_numbers;
mod edges;
mod farms;
mod forms;
mod kind;
mod kinds;
pub mod laws;
mod laying;
mod layout;
mod on_demand;
mod picks;
mod places;
mod planning;
mod span;
mod units;
mod wiring;

pub use edge_list::EdgeList;
pub use kind::{Party, Queue, UnitKind};
pub use layout::{Edge, Layout, UnitRow};
pub use places::nets_stand_at_places;
pub use planning::plan;
pub use wiring::each_edge_has_two_ends;
