//! The core: units over plain queues, stepped one at a time on one thread, in any order.
#![tactic(auto)]

mod copies;
mod core_step;
mod drainer;
mod ends;
mod feeder;
mod kinds;
mod making;
mod middle;
mod net_core;
mod net_unit;
mod network;
mod opening;
mod rejects;
mod row;
mod row_ports;
mod schedule;
mod unit_step;
mod units;
mod wraps;

pub use net_unit::NetUnit;
pub use network::NetCore;
pub use units::make_units;
