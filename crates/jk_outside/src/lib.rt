//! The world outside, behind two traits: files that are listed and read, and sinks that bytes go out to. A third says what a
//! system does for files, and `Disk` passes it on to the one that the program runs on. Contracts name what
//! is told: files in memory tell their tree, and a disk doesn't. Every fault is counted, so that an answer other than the
//! good one has its cause.
#![tactic(auto)]

mod asked;
mod disk;
mod disk_files;
mod files;
mod folder_walk;
mod found;
mod handed_pieces;
mod line_buffer;
mod line_output;
mod line_printer;
mod line_refs;
mod memory_files;
mod memory_sink;
mod numbers;
mod parts;
mod reading;
mod rule_names;
mod several_lines;
mod sinks;
mod stream_sink;
mod system;

pub use disk::Disk;
pub use disk_files::DiskFiles;
pub use files::{Files, FilesError};
pub use jk_model::Entry;
pub use line_buffer::LineBuffer;
pub use line_output::write_line;
pub use line_printer::print_line;
pub use line_refs::{LineRef, PlaceRef};
pub use memory_files::{MemoryFile, MemoryFiles};
pub use memory_sink::MemorySink;
pub use parts::Part;
pub use several_lines::{print_next, print_none};
pub use sinks::{Sink, SinkFailed};
pub use stream_sink::StreamSink;
pub use system::System;
