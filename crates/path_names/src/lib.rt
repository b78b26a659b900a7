//! The names and paths of files, folders and links: what a legal name is, the names that a path joins, and which paths
//! cannot stand together.
#![tactic(auto)]

mod names;
mod parts;

pub use names::{is_name, is_path};
pub use parts::{cut, holds_byte};
