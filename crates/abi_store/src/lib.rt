//! Values into the memory of a component, and into flat values (Component Model, CanonicalABI.md, "Storing" and "Flat Lowering"),
//! from request to request for memory.
#![tactic(auto)]

mod beginning;
mod cases;
mod content;
mod contents;
mod flats;
mod forms;
mod going;
mod number;
mod parts;
mod plan;
mod request;
mod room;
mod slot;
mod stage;
mod storing;
mod target;
mod values;
mod work;

pub use plan::StorePlan;
pub use target::{CoreValues, StoreStep, Target};
