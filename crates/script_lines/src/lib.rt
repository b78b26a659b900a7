//! The lines of what is seen of a component that runs: values of the interface language (WIT) as JSON (RFC 8259), by their type,
//! and observations.
#![tactic(auto)]

mod lines;
mod showing;
mod texts;
mod trees;
mod values;
mod writing;

pub use lines::{append_line, print_observation};
