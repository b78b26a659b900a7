//! Whether a component joins two others: it holds both, makes an instance of each, and its own sections make nothing. `specs/` hold the
//! definition.
#![tactic(auto)]

mod form;
mod sections;

pub use form::is_joining;
