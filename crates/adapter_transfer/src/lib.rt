//! The functions of the adapter's transfer area, realloc and post-returns; core modules of exported functions, from their parts; and the
//! laws that the code of routines is valid.
#![tactic(auto)]

mod instructions;
mod laws;
mod module;
mod module_laws;
mod transfer;
mod valid;

pub use laws::transfers_are_valid;
pub use module::{Defined, Parts, assemble};
pub use module_laws::modules_are_valid;
pub use transfer::{realloc, reset};
pub use valid::{bodies_are_valid, functions_are_valid, pieces_join, routines_are_valid};
