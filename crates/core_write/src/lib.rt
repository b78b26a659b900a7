//! Writing core modules, in their shortest spelling.
#![tactic(auto)]

mod instrs;
mod items;
mod laws;
mod lists;
mod ops;
mod sections;
mod types;
mod writing;

pub use laws::writable_modules_are_spelled;
pub use writing::{write_module, write_writable};
