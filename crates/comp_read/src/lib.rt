//! The reader of components, and a law on its refusals: why a component stops at a byte that is not supported.
#![tactic(auto)]

mod causes;
mod nesting;
mod reading;
mod sections;

pub use causes::components_stop_for_a_cause;
pub use reading::{CompReadFault, read_component};
