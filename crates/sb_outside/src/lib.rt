//! Where bytes come from and where they go: sources, sinks, folders, and the lines of a source.
//!
//! A [`Source`] and a [`Sink`] count their faults, a [`Folder`] lists the loads that failed, and each may answer a
//! fault only if that grew. [`MemSource`], [`MemSink`] and [`MemFolder`] are in memory and
//! fail when told to; [`StdSource`], [`StdSink`] and [`StdFolder`] stand over std's readers, writers
//! and files. [`LineReader`] and [`LineBuffer`] give a source's lines one at a time.
#![tactic(auto)]

mod buffer;
mod failed_loads;
mod folder;
pub mod laws;
mod lines;
mod look;
mod memory;
mod memory_folder;
mod refusals;
mod schedule;
mod search;
mod sink;
mod source;
mod standard;
mod standard_folder;

pub use folder::{Folder, FolderFault};
pub use lines::{Halt, LONGEST_LINE, LineBuffer, LineReader, Next, Step};
pub use memory::{MemSink, MemSource};
pub use memory_folder::MemFolder;
pub use sink::{Sink, SinkFault, write_all_of};
pub use source::{Source, SourceFault};
pub use standard::{StdSink, StdSource};
pub use standard_folder::StdFolder;

#[cfg(test)]
mod tests;
