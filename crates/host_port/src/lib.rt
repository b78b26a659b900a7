//! What meets a component's imports: the trait `Host`, what it is called with, what it answers, and what is seen of it.
//! `specs/` define what a host is, and the host that answers by a script.
#![tactic(auto)]

mod answer;
mod call;
mod copies;
mod host;

pub use answer::{Answer, Observation, Observations};
pub use call::{HostCall, HostFunc, Resource};
pub use copies::{copy_call, copy_resource};
pub use host::Host;
