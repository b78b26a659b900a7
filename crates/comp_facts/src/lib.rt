//! What is kept of a type's definition, found from what is kept of its parts: how deep it is, how many parts it has, whether it has
//! borrowed handles, strings or lists, its flat types, and its key.
#![tactic(auto)]

mod facts;
mod forms;
mod funcs;
mod keys;
mod parts;

pub use facts::Facts;
pub use forms::{RecordForm, VariantForm};
pub use funcs::FuncFacts;
pub use keys::{and_name, and_names, and_number};
pub use parts::PartFacts;
