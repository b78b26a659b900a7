//! The inspection of a component: from the words of a command line to the lines that say what it imports, function by function, and what a
//! policy leaves of that. It writes no file.
#![tactic(auto)]

mod engine;
mod family;
mod fate;
mod fetch;
mod line;
mod policy;
mod put;
mod report;
mod rows;
mod status;
mod texts;

pub use engine::wasi_inspect;
pub use fate::Fate;
pub use report::report_for;
pub use rows::{Row, Rows, rows_for};
pub use status::{Status, code};
