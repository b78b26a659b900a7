//! The definitions of types in a component or an instance type, and outer aliases: the rules that are asked of them, the types for
//! which they stand, and what they add to a scope. Scopes stand in one another, and are opened and closed.
#![tactic(auto)]

mod aliases;
mod due_resources;
mod due_values;
mod faults;
mod kinds;
mod labels;
mod outer;
mod parts;
mod scopes;
mod types;
mod values;

pub use aliases::{define_outer_alias, define_outer_type};
pub use due_resources::resources_are_due;
pub use due_values::def_has_values;
pub use kinds::kind_of;
pub use scopes::Scopes;
pub use types::define_type;
pub use values::value_at;
