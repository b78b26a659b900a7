//! What running a component means, over any group of instances: what is done to it, what is seen of it, and the laws of that; and
//! groups made of two. `specs/` hold the definitions.
#![tactic(auto)]

mod groups;
mod laws;

pub use groups::{Parts, parts_do_what_the_whole_does};
pub use laws::{Worlds, more_steps_extend, related_hosts_are_seen_alike};
