//! A network under load: records that are made as they are read, a fixed network by threads, and a summary of what it sends.
#![tactic(auto)]

mod fault;
mod line;
mod network;
mod print;
mod run;
mod sink;
mod source;
mod summary;
mod tally;

pub use fault::SoakFault;
pub use line::MOST_RECORDS;
pub use network::MOST_WORKERS;
pub use print::print_summary;
pub use run::soak;
pub use summary::Summary;
