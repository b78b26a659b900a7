//! The trees of an output: of the adapter, and of what stands around the application. Nothing is claimed of them here: what was made
//! is checked.
#![tactic(auto)]

mod catalogue;
mod core_part;
mod declare;
mod imports;
mod join;
mod making;
mod queue;
mod scope;
mod sections;
mod shims;
mod standing;
mod types;
mod world;

pub use catalogue::{Catalogue, ListedType};
pub use declare::Declared;
pub use imports::{Imported, Imports, import_world};
pub use join::{Given, behind, between, given_in_order};
pub use making::adapter;
pub use sections::Sections;
pub use standing::Standing;
pub use world::needed;
