//! Links a component: what each of its definitions plans, and the plan by which its instances are made, found in one walk over its
//! sections.
#![tactic(auto)]

mod aliases;
mod arguments;
mod canons;
mod core_instances;
mod definitions;
mod draft;
mod externs;
mod instances;
mod linking;
mod modules;
mod nested;
mod planner;
mod resources;
mod sections;
mod types;

pub use arguments::{item_at, named_args};
pub use core_instances::core_instance_item;
pub use draft::Draft;
pub use externs::{export_item, import_item};
pub use instances::instance_item;
pub use linking::link;
pub use modules::take_modules;
pub use resources::resource_at;
