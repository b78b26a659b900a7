//! Entries in a fixed number of places, whose free places form a linked list.
#![tactic(auto)]

mod cells;
mod slots;

pub use cells::{Cells, Full, Place, free_in, take_in};
pub use slots::Slots;
