//! When a component is valid, and what its type is (Component Model, Binary.md and Explainer.md).
#![tactic(auto)]

mod components;
mod declarations;
mod definitions;
mod fault;
mod instance_types;
mod nested;
mod open_types;
mod sections;
mod type_sections;
mod walks;
mod whole;

pub use fault::CompFault;
pub use sections::{close_nested, define_module};
pub use type_sections::define_types;
pub use whole::validate;
