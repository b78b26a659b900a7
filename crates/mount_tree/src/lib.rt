//! The trees of a policy, built from what it writes out and from the files and folders that it names. And laws of trees: that putting
//! one in order keeps its path map, and a walk in which a child is found by halves.
#![tactic(auto)]

mod fault;
mod forest;
mod halves;
mod making;
mod maps;
mod mount;
mod ordered;
mod paths;
mod policy_trees;
mod reading;
mod steps;
mod walking;

pub use fault::TreeFault;
pub use halves::halves_find_the_child;
pub use maps::order_keeps_the_map;
pub use policy_trees::build;
pub use walking::{steps_lead_on, walk_in_steps};
