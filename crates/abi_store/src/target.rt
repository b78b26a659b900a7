//! Where a value is stored, and what a plan of storing answers at each step.

use core_store::CoreValue;
use virt_base::Items;

/// Core values in order.
pub type CoreValues = Items<CoreValue>;

/// Where a value goes.
#[derive(Debug, Clone, Copy, PartialEq, Eq)]
pub enum Target {
    /// To a place of the memory, as a result that spills.
    At(u32),
    /// Among flat values.
    Flat,
    /// To memory that is asked for, as parameters that spill; the flat value is its place.
    Spill,
}

/// How far a plan has come.
#[derive(Debug, Drop)]
pub enum StoreStep {
    /// `realloc` is called with these numbers, and the next call of `next` brings its answer.
    NeedsRealloc {
        place: u32,
        old_len: u32,
        align: u32,
        len: u32,
    },
    /// All is stored, and these are the flat values.
    Done(CoreValues),
    /// A string or a list is too long, or a place is not aligned or without room.
    Trap,
}
