//! An instance that is being made, with its plan and how far that has come. Levels stand in a list, from the outermost component in.

use crate::part::Part;
use instance_making::Making;

/// An instance that is made, and how far its plan has come.
#[derive(Drop)]
pub struct Level {
    pub making: Making,
    pub part: Part,
    /// The number from which on its own resources have numbers in the component that holds it.
    pub first: u32,
    pub at: usize,
}
