//! The canonical functions of a component: the rules that are asked of them, the flat type of what is lifted and the options among them,
//! and what they add to a scope.
#![tactic(auto)]

mod canons;
mod core_funcs;
mod core_types;
mod lifted_from;
mod lifts;
mod lowers;
mod met;
mod options;
mod resources;

pub use canons::define_canon;
pub use lifted_from::{is_destructor, is_lifted_from};
pub use lowers::lowered_at;
pub use options::{CoreFuncs, lift_options, lower_options};
