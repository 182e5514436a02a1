//! The outside as the other crates see it: sources and sinks of bytes, and files by name, each with a count of its faults.
#![tactic(auto)]

mod files;
mod host_files;
mod mem_files;
mod mem_sink;
mod mem_source;
mod outside;
mod reader_source;
mod short_sink;
mod slow_source;
mod stdin_source;
mod writer_sink;

pub use files::{FileFault, Files, StoreFault};
pub use host_files::HostFiles;
pub use mem_files::MemFiles;
pub use mem_sink::MemSink;
pub use mem_source::MemSource;
pub use outside::{Failed, Sink, Source, write_all};
pub use reader_source::ReaderSource;
pub use short_sink::ShortSink;
pub use slow_source::SlowSource;
pub use stdin_source::StdinSource;
pub use writer_sink::{StderrSink, StdoutSink, WriterSink};
