//! The types of the interface language (WIT), their values, and their layout by the Canonical ABI.
#![tactic(auto)]

mod type_copies;
mod types;
mod typing;
mod value;
mod value_copies;

pub use type_copies::{copy_func, copy_type};
pub use types::{Case, Cases, Field, Fields, FuncType, Labels, Types, WitType};
pub use typing::has_type;
pub use value::{Value, Values};
pub use value_copies::{copy_value, copy_values};
