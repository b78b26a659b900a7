//! The handles that stand in a value, in order, and the value with other numbers in their places (Component Model, CanonicalABI.md,
//! "Lifting and Lowering Values": what `lift_own`, `lift_borrow`, `lower_own` and `lower_borrow` are called for).
#![tactic(auto)]

mod collecting;
mod handle;
mod places;
mod renumbering;
mod types;

pub use collecting::collect_handles;
pub use handle::{ValueHandle, ValueHandles};
pub use renumbering::renumber;
pub use types::has_handles;
