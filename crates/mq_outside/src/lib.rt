//! Input and output: files and sinks that count their faults, in memory and of the system, and text that is put whole or
//! gathered first.
#![tactic(auto)]

mod gather;
mod host;
mod memory;
mod outside;
mod write;

pub use gather::{Gather, Piece, add_bytes, add_pieces, flush};
pub use host::{HostFiles, HostSink};
pub use memory::{MemFile, MemFiles, MemSink};
pub use outside::{FileFault, Files, Sink, SinkFault};
pub use write::{put_all, put_number};

#[cfg(test)]
mod tests;
