//! Which addresses of sockets a policy's rules allow.
#![tactic(auto)]

mod address;
mod network;
mod rules;

pub use rules::allows;
