//! Where bytes come from and where they go: sources and sinks with a count of their faults, in
//! memory and over the readers and writers of std, and reading and writing of a whole input.
#![tactic(auto)]

mod memory_sink;
mod memory_source;
mod reading;
mod sink;
mod source;
mod std_sink;
mod std_source;
mod writing;

pub use memory_sink::MemorySink;
pub use memory_source::MemorySource;
pub use reading::{Gathered, read_all};
pub use sink::{Put, Sink};
pub use source::{Source, Taken};
pub use std_sink::StdSink;
pub use std_source::StdSource;
pub use writing::{Written, write_all};
