//! The plan by which a component's instances are made, the group of instances that the component is when it runs, and what is observed
//! of it: definitions, the law of related hosts for components, and the law that an instance exports what the component's type exports.
//! `specs/` hold the definitions.
#![tactic(auto)]

mod exports;
mod items;
mod laws;
mod linked;

pub use exports::{linked_exports_are_those_of_the_type, spelled_components_define_types};
pub use items::{ItemAt, PlanArg, PlanItem};
pub use laws::{components_are_seen_alike, own_resources_are_new};
pub use linked::{ComponentPlan, Linked};
