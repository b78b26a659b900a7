//! The machine that runs core code.
#![tactic(auto)]

mod blocks;
mod bytes;
mod calls;
mod computing;
mod control;
mod fetch;
mod leaves;
mod machine;
mod memory;
mod operands;
mod plain;
mod refs;
mod running;
mod steps;
mod straight;
mod tables;
mod variables;

pub use core_slots::CoreValues;
pub use machine::{Machine, Pause};
