//! The core module that holds the adapter's state: its memory, and the functions that work on it alone.
#![tactic(auto)]

mod destructors;
mod functions;
mod imports;
mod names;
mod parts;
mod state;

pub use destructors::destructor;
pub use imports::{drop_indexes, put_drop_imports};
pub use parts::{Posts, Presence};
pub use state::state_module;
