//! Values from the memory of a component, and from flat values (Component Model, CanonicalABI.md, "Loading" and "Flat Lifting").
#![tactic(auto)]

mod fault;
mod lifting;
mod loading;
mod number;
mod range;

pub use fault::LoadFault;
pub use lifting::{is_flat, lift_flat};
pub use loading::load;
