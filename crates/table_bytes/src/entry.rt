//! The entries of the adapter's slot tables, as values. `specs/` define how they lie in bytes.

/// What a used place of a slot table holds: what a handle of its kind stands for.
#[derive(Clone, Copy, PartialEq, Eq, Debug)]
pub enum Entry {
    /// A handle of the host, by its index in the adapter's handle table.
    Host(u32),
    /// A node of the table of trees.
    Node(u32),
    /// The node of a file, and a place in the file.
    FileAt(u32, u64),
    /// A stream that is at its end.
    EmptyIn,
    /// A stream that takes everything and keeps nothing.
    Discard,
    /// A pollable that is always ready.
    Always,
    /// The entries of a folder that are still to come: the node of the first of them, and how many they are.
    Entries(u32, u64),
    /// The scratch folder.
    ScratchRoot,
    /// The entries of the scratch folder from this number on.
    ScratchEntries(u32),
    /// A file of the scratch folder, and whether it may be written.
    ScratchFile(u32, bool),
    /// A file of the scratch folder, and a place from which it is read.
    ScratchIn(u32, u64),
    /// A file of the scratch folder, and the place at which it is written; none for its end.
    ScratchOut(u32, Option<u64>),
}
