//! Components that run over a host: their instances are made by the plan of the linked component, and calls of their exports are made.
#![tactic(auto)]

mod assembly;
mod canons;
mod exports;
mod items;
mod laws;
mod level;
mod part;
mod run;
mod runnable;

pub use comp_calls::RunEnd;
pub use laws::spelled_components_can_be_made;
pub use run::Run;
