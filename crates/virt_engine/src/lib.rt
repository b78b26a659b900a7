//! The top call: from the words of a command line to the files that it writes and the text that it puts.
#![tactic(auto)]

mod app;
mod command;
mod ends;
mod engine;
mod fetch;
mod finishing;
mod generating;
mod laws;
mod line;
mod lines;
mod plan;
mod plugging;
mod policy;
mod report;
mod runner;
mod running;
mod status;
mod tally;
mod trees;
mod write_out;

pub use engine::wasi_virt;
pub use laws::{one_refusal_is_due, one_status_is_due, runs_end_alike};
pub use lines::Lines;
pub use runner::{Shown, run_component};
pub use status::{PlugFault, Status, code};
pub use tally::Tally;
