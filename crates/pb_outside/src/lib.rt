//! What lies outside a program: bytes that come in, bytes that go out, connections and files. Each is a trait with a count of faults, and an answer `Failed` comes only where the count rose. The objects in memory tell all their content, and the adapters over the system tell none.
#![tactic(auto)]

mod ends;
mod error;
mod fault_count;
mod fault_plan;
mod files;
mod link;
mod memory_files;
mod memory_link;
mod memory_sink;
mod memory_source;
mod named_file;
mod sink;
mod source;
mod streams;
mod whole;

pub use ends::Ends;
pub use error::OutError;
pub use fault_count::FaultCount;
pub use fault_plan::FaultPlan;
pub use files::{Files, SystemFiles};
pub use link::Link;
pub use memory_files::MemoryFiles;
pub use memory_link::MemoryLink;
pub use memory_sink::MemorySink;
pub use memory_source::MemorySource;
pub use named_file::NamedFile;
pub use sink::Sink;
pub use source::Source;
pub use streams::{StreamSink, StreamSource, behind};
pub use whole::read_up_to;
