//! Where tables are read from and written to: a shelf of named entries and a sink for text, as traits.
//!
//! `MemoryShelf` and `MemorySink` are exact, and fail at the calls that they are told to fail at. `FileShelf` and `StdSink`
//! adapt real files and streams, of which no clause says what they give or keep.
#![tactic(auto)]

mod bytes;
mod call_log;
mod entry_log;
mod file_shelf;
mod memory;
mod memory_shelf;
mod memory_sink;
mod shelf;
mod sink;
mod std_sink;
mod transfer;

pub use bytes::Bytes;
pub use file_shelf::FileShelf;
pub use memory::Memory;
pub use memory_shelf::MemoryShelf;
pub use memory_sink::MemorySink;
pub use shelf::{FetchError, Fetched, Shelf, StoreFailed};
pub use sink::{Sink, SinkFailed};
pub use std_sink::StdSink;
pub use transfer::{read_within, write_whole};
