//! The outside as the product sees it: a disk with its record of calls, sources and sinks of bytes,
//! and a supply of GUIDs; each with an implementation in memory and an adapter to the real thing.
#![tactic(auto)]

mod counter_guids;
mod disk;
mod guids;
mod image_file;
mod laws;
mod layout;
mod log;
mod memory;
mod memory_sink;
mod memory_source;
mod pick;
mod random_guids;
mod replay;
mod std_sink;
mod std_source;
mod streams;

pub use counter_guids::CounterGuids;
pub use disk::{Disk, DiskFault};
pub use guids::Guids;
pub use image_file::ImageFile;
pub use laws::{stop_may_leave_live_bytes, sync_makes_stable};
pub use layout::{BLOCK_LEN, GoodKind, ImageKind, Layout, TableKind};
pub use memory::Memory;
pub use memory_sink::MemorySink;
pub use memory_source::MemorySource;
pub use pick::Pick;
pub use random_guids::RandomGuids;
pub use std_sink::StdSink;
pub use std_source::StdSource;
pub use streams::{Sink, SinkFault, Source, SourceFault};
