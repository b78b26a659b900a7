//! The core modules of the adapter, and their bytes.
#![tactic(auto)]

mod bodies;
mod bytes;
mod emitted;
mod fault;
mod laws;
mod modules;
mod posts;
mod spelled;
mod statements;
mod weight;

pub use bodies::{bodies_stand, memories_are_filled};
pub use bytes::{EmittedBytes, emit_bytes};
pub use emitted::{state_does, stubs_do};
pub use fault::EmitFault;
pub use laws::emitted_are_writable;
pub use modules::{Emitted, Routines, emit};
pub use spelled::{bodies_are_spelled, routines_are_spelled};
pub use weight::{MOST_WEIGHT, is_light};
