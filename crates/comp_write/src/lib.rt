//! Writing components: their items in the shortest spelling, and what is nested in them as it stands in the input.
#![tactic(auto)]

mod aliases;
mod canons;
mod core_instances;
mod externs;
mod instances;
mod open_types;
mod sections;
mod type_items;
mod types;
mod writing;

pub use aliases::AliasWriter;
pub use canons::CanonWriter;
pub use core_instances::CoreInstanceWriter;
pub use externs::{ExportWriter, ImportWriter};
pub use instances::InstanceWriter;
pub use type_items::TypeItemsWriter;
pub use writing::write_component;
