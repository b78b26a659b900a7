//! The machine's files and standard output, as `Files` and `Sink`.
#![tactic(auto)]

mod real_files;
mod real_sink;

pub use real_files::RealFiles;
pub use real_sink::RealSink;
