//! The numeric instructions of core modules on integers.
#![tactic(auto)]

mod bits32;
mod bits64;
mod opcode;
mod widths;

pub use opcode::integer;
