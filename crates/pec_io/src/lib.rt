//! Bytes in and bytes out. A source gives bytes and a sink takes them; each may tell its contents
//! and counts its faults, so that an answer of failure always has a cause that a contract can name.
#![tactic(auto)]

mod failures;
mod memory_sink;
mod memory_source;
mod reading;
mod sink;
mod source;
mod std_streams;
mod steady_sink;
mod steady_source;
mod writing;

pub use failures::{Failed, NoMemory};
pub use memory_sink::MemorySink;
pub use memory_source::MemorySource;
pub use reading::{ReadRefusal, read_all};
pub use sink::Sink;
pub use source::Source;
pub use std_streams::{StdSink, StdSource};
pub use steady_sink::SteadySink;
pub use steady_source::SteadySource;
pub use writing::write_all;
