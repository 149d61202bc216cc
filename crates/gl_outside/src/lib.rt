//! The outside of Glacier: shelves of texts by name, sinks of bytes, and lists of words.
//!
//! Here belongs what touches files and streams, and what stands for them in memory. What a text
//! means does not: every crate above sees a shelf and a sink by their states alone.
#![tactic(auto)]

mod counter;
pub mod file_shelf;
mod held;
pub mod memory_shelf;
pub mod memory_sink;
pub mod reading;
pub mod shelf;
pub mod sink;
pub mod stream_sink;
pub mod words;
pub mod writing;

pub use file_shelf::FileShelf;
pub use gl_bits::Memory;
pub use memory_shelf::{MemoryShelf, NeverFailsShelf};
pub use memory_sink::{MemorySink, NeverFailsSink};
pub use reading::{ReadFault, read_all};
pub use shelf::{Fetch, Shelf, TEXT_LIMIT};
pub use sink::{Put, Sink};
pub use stream_sink::StreamSink;
pub use words::Words;
pub use writing::{WriteFault, write_all_of};
