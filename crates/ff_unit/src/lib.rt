//! The units of a network: what each of them is seen as and promises, and those that don't keep an order between several streams. A
//! stage runs a node between its in and its out, a deal hands records out to several outs, and a merge brings several ins together.
#![tactic(auto)]

mod aborts;
mod closing;
mod deal;
mod dealing;
mod flags;
mod keys;
mod merge;
mod mode;
mod places;
mod runner;
mod stage;
mod takes;
mod threaded;
mod unit;

pub use closing::spoil;
pub use deal::{Deal, Held, HeldPut, Last};
pub use dealing::Dealing;
pub use flags::Flags;
pub use keys::key_place;
pub use merge::Merge;
pub use mode::Mode;
pub use places::take_out;
pub use runner::NodeRunner;
pub use stage::Stage;
pub use takes::take_any;
pub use threaded::Threaded;
pub use unit::Unit;
