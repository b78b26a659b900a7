//! The reader of core modules.
#![tactic(auto)]

mod instrs;
mod items;
mod nesting;
mod ops;
mod reading;
mod sections;
mod select_lists;
mod types;

pub use reading::{CoreModules, ReadFault, read_module};
pub use select_lists::SelectLists;
