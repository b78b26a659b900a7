//! Readers of the items of a component's sections.
#![tactic(auto)]

mod aliases;
mod aparts;
mod canons;
mod core_instances;
mod due;
mod externs;
mod instances;
mod type_items;
mod types;

pub use aliases::AliasReader;
pub use canons::CanonReader;
pub use core_instances::CoreInstanceReader;
pub use externs::{ExportReader, ImportReader, lacks};
pub use instances::InstanceReader;
pub use type_items::TypeItemsReader;
