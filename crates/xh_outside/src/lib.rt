//! The outside of the program: files that are read, sinks that are written, and the words of the
//! command line. `MemFiles` and `MemSink` are the outside in memory, whose every answer is known;
//! `DiskFiles` and `StdSink` are the system's, of which no contract can tell the bytes.
#![tactic(auto)]

mod bytes;
mod disk_files;
mod due;
mod errors;
mod files;
mod mem_files;
mod mem_sink;
mod name;
mod sink;
mod std_sink;
#[cfg(test)]
mod tests;
mod words;

pub use bytes::Bytes;
pub use disk_files::DiskFiles;
pub use errors::{Failed, NoMemory, ReadError};
pub use files::Files;
pub use mem_files::MemFiles;
pub use mem_sink::MemSink;
pub use name::Name;
pub use sink::{Sink, write_all};
pub use std_sink::StdSink;
pub use words::Words;
