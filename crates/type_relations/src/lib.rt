//! Equality, subtyping and substitution of what components import and export, where a table holds the value types: each pair of
//! value types is compared once in a walk, and each one is made once, however often it stands in what is walked. And the resources that
//! a type names, each once, in the order in which they stand in it.
#![tactic(auto)]

mod calls;
mod declared;
mod item_matching;
mod items;
mod nodes;
mod relations;
mod renaming;
mod resources;
mod search;
mod unpack;
mod values;

pub use calls::func_alone;
pub use items::{names_none, resources_of_entries, resources_of_kind};
pub use relations::{equal, is_given, subtype};
pub use renaming::{entries_with, substitute};
pub use resources::Resources;
