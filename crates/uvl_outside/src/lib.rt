//! The outside of a program, as three traits: files that are read whole, a source of bytes and a
//! sink for bytes. Each object counts the faults that it answers.
#![tactic(auto)]

mod fault_plan;
mod files;
mod host_files;
mod mem_files;
mod mem_sink;
mod mem_source;
mod reading;
mod sink;
mod source;
mod std_sink;
mod std_source;
mod sure_files;
mod sure_sink;
mod sure_source;
mod writing;

pub use files::{FetchFault, Fetched, Files, OutOfMemory};
pub use host_files::HostFiles;
pub use mem_files::MemFiles;
pub use mem_sink::MemSink;
pub use mem_source::MemSource;
pub use sink::{PutFault, Sink};
pub use source::{Failed, Source};
pub use std_sink::StdSink;
pub use std_source::StdSource;
pub use sure_files::SureFiles;
pub use sure_sink::SureSink;
pub use sure_source::SureSource;
