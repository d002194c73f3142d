//! Where bytes come from and where they go: sources and sinks with a count of faults, reading a
//! source to its end, and writing all of some bytes.
#![tactic(auto)]

mod memory;
mod read;
mod standard;
mod traits;
mod write;

pub use memory::{Calls, MemSink, MemSource};
pub use read::{READ_LIMIT, ReadFault, read_all};
pub use standard::{StdSink, StdSource};
pub use traits::{Failed, Sink, Source};
pub use write::{WriteFault, write_all};
