//! The table of a component instance's resource handles.
#![tactic(auto)]

mod cell;
mod table;

pub use table::{AddFault, HandleTable, Taken};
