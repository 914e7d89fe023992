//! The outside: files by name, and sinks for bytes. Each counts its faults, so that a caller's contract can
//! say that a fault was answered only where the outside failed.
//!
//! A program meets the outside only through the traits [`Shelf`] and [`Sink`]. What a shelf or a sink tells of
//! itself, it tells as ghost values: the content of a name, the bytes put so far, the count of faults. Shelves
//! and sinks in memory tell all, so that what is proved over them holds of contents; real files and streams
//! tell nothing but their count of faults.
//!
//! A fetch takes time and room for the content, and never reads more than one byte past its limit. A put takes
//! time for its piece, and only a sink in memory takes room.
#![tactic(auto)]

mod files;
mod memory_shelf;
mod memory_sink;
mod shelf;
mod sink;
mod stream;
#[cfg(test)]
mod tests;

pub use files::FileShelf;
pub use memory_shelf::MemoryShelf;
pub use memory_sink::MemorySink;
pub use shelf::{FetchFault, Shelf};
pub use sink::{PutFault, Sink};
pub use stream::StreamSink;
