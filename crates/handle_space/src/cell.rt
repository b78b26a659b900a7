//! What the table of handles has at one index.

/// What the table keeps at an index: a handle, or a link of the list of freed indexes.
///
/// The cells are counted from 0, and the index of a cell is one more.
#[derive(Debug, Clone, Copy)]
pub enum Cell {
    /// No handle. It names the cell that was freed before this one, if it waits for use too.
    Free(Option<u32>),
    /// A handle that owns, lent so often now.
    Own { resource: u32, rep: u32, lent: u64 },
    /// A handle that borrows, for a call.
    Borrow { resource: u32, rep: u32 },
}
