//! The outside of a call as two traits, files and a sink, and both in memory, with failures at listed places.
#![tactic(auto)]

mod buffer;
mod contents;
mod entries;
mod failing;
mod files;
mod folders;
mod mem_files;
mod mem_sink;
mod mem_tables;
mod sink;

pub use contents::{Contents, Named, NamedBytes, NamedEntries};
pub use entries::are_in_order;
pub use failing::Places;
pub use files::{Entries, Entry, EntryKind, FileFail, Files, WriteFailed};
pub use mem_files::MemFiles;
pub use mem_sink::MemSink;
pub use sink::{PutFailed, Sink};
