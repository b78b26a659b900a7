//! Plugging: one component that holds two. The first is instantiated over the host, the second over what the first exports and, where
//! that lacks an instance, over the host. What is made is checked before it is answered.
#![tactic(auto)]

mod around;
mod asks;
mod checked;
mod fault;
mod marks;
mod merged;
mod plugged;
mod plugging;

pub use fault::PlugFault;
pub use plugged::{Half, Plugged};
pub use plugging::plug;
