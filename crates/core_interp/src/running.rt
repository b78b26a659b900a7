//! The state of a run: the place in the code, the operands and locals, and what is in progress.

use crate::control::Control;
use core_slots::Slots;

/// A run that stands in the code of a function.
#[derive(Drop)]
pub struct Running {
    pub function: u32,
    pub at: usize,
    pub slots: Slots,
    pub controls: Vec<Control>,
}
