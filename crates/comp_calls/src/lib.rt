//! Calls between the instances of a component and its host: what core code asks for, and what comes of it (Component Model,
//! CanonicalABI.md, `canon_lift`, `canon_lower`, `canon_resource_new`, `canon_resource_rep`, `canon_resource_drop`). Calls in progress stand
//! in a list, and not in the stack of the process.
#![tactic(auto)]

mod calls;
mod lowering;
mod resources;
mod serving;
mod world;

pub use call_moments::{Group, RunEnd, Stop};
pub use world::World;
