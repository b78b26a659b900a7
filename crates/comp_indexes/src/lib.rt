//! What is asked of a definition of a component by itself: its names differ and are legal, and each index that it names is below the
//! length of its index space.
#![tactic(auto)]

mod canons;
mod definitions;
mod differ;
mod instances;
mod legal;
mod named;
mod types;

pub use canons::{canon_stands, export_stands};
pub use definitions::{def_is_filled, def_labels_are_legal};
pub use differ::{names_differ, texts_differ};
pub use instances::{alias_stands, core_instance_stands, instance_stands};
pub use legal::{labels_are_legal, names_are_legal};
pub use named::Named;
pub use types::{def_stands, desc_stands, type_alias_stands};
