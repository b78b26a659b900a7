//! The component that is generated for a number of functions, the policy under which it is wrapped, and the script over which it runs
//! (Component Model, Binary.md; WebAssembly core specification, chapter 5).
#![tactic(auto)]

mod component;
mod items;
mod part;
mod put;
mod script;

pub use component::generated_component;
pub use part::Part;
pub use script::{generated_policy, generated_script};
