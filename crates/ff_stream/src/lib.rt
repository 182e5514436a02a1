//! How the records of a stream are worked on: they are read in pieces and handed over as they come, and what is sent for
//! them is written. How a run ends is said here once, for every way in which the work is done.
#![tactic(auto)]

mod ending;
mod fault;
mod flow;
mod intake;
mod limits;
mod piece;
mod reading;
mod run;
mod stream;
mod taking;
mod text;
mod work;
mod write;

pub use ending::{Ending, Report, Stop};
pub use fault::{Halt, RunFault};
pub use flow::{Flow, open as open_flow};
pub use intake::Intake;
pub use run::run_work;
pub use stream::run_stream;
pub use taking::take_stream;
pub use text::Text;
pub use work::Work;
pub use write::write_records;
