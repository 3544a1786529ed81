//! Files that are read by name, sinks that take bytes, and a counter of steps: all that the program reads and writes
//! through.
#![tactic(auto)]

mod counts;
mod files;
mod machine_files;
mod machine_sinks;
mod memory_files;
mod memory_sinks;
mod sinks;
mod steps;
mod whole;

pub use files::{FileFault, Files};
pub use machine_files::OsFiles;
pub use machine_sinks::OsSink;
pub use memory_files::{MemFiles, SureFiles};
pub use memory_sinks::{MemSink, SureSink};
pub use sinks::{Sink, SinkFault};
pub use steps::Steps;
pub use whole::{ReadFault, read_whole, write_whole};
