//! A handle of a value, as walks find it: its form, its resource and its number.

/// A handle in a value, by its type: it owns a resource, or borrows it. The number is an index of a table, or what the handle stands for.
#[derive(Debug, Clone, Copy, PartialEq, Eq)]
pub enum ValueHandle {
    Own { resource: u32, number: u32 },
    Borrow { resource: u32, number: u32 },
}

/// Handles in the order in which they stand in a value.
pub type ValueHandles = Vec<ValueHandle>;
