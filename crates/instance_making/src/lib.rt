//! A component instance as it is made, item by item of its plan: what stands at the indexes of each sort, and what it exports. `specs/`
//! say for which instance of the definition it stands.
#![tactic(auto)]

mod bound;
mod call_types;
mod canons;
mod core_making;
mod given;
mod imports;
mod items;
mod making;
mod named;
mod numbers;

pub use given::{CoreItems, Given, Givens, MadeInstances};
pub use imports::{HostResources, outside};
pub use making::Making;
pub use named::Named;
