//! The core code of routines.
#![tactic(auto)]

mod body;
mod bounds;
mod calls;
mod code;
mod labels;
mod laws;
mod numbers;

pub use body::{compile, declared};
pub use bounds::{is_shallow, nesting_of};
pub use calls::{Calls, HandleCalls};
pub use code::put_routine;
pub use laws::routines_do;
