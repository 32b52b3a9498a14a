//! Files that are read whole up to a limit, and sinks that take bytes in pieces.
//!
//! The program reaches the outside through these two traits alone. Over memory they tell what they
//! hold, so that a contract can name it; over the host they tell nothing and are the trusted edge.
#![tactic(auto)]

pub mod arguments;
mod calls;
pub mod files;
pub mod host;
pub mod memory_files;
pub mod memory_sink;
pub mod sink;

pub use arguments::words_of;
pub use files::{Files, ReadFault};
pub use host::{HostFiles, HostSink};
pub use memory_files::MemoryFiles;
pub use memory_sink::MemorySink;
pub use sink::Sink;
