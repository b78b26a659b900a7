//! The tags of entries in slot tables: what a used place holds, and so what a handle stands for.

/// What a used place of a slot table holds, by the tag of its entry. The entry's word is the index of the host's handle, the number
/// of a node or of a scratch file, or 0; its long word is a place in a file, how many entries are left, or 0.
#[derive(Clone, Copy, PartialEq, Eq, Debug)]
pub enum Tag {
    /// A handle of the host, by its index in the adapter's handle table.
    Host = 1,
    /// A node of the table of trees.
    Node = 2,
    /// The node of a file, and a place in the file.
    FileAt = 3,
    /// A stream that is at its end.
    EmptyIn = 4,
    /// A stream that takes everything and keeps nothing.
    Discard = 5,
    /// A pollable that is always ready.
    Always = 6,
    /// The entries of a folder that are still to come: the node of the first of them, and how many they are.
    Entries = 7,
    /// The scratch folder.
    ScratchRoot = 8,
    /// The entries of the scratch folder from this number on.
    ScratchEntries = 9,
    /// A file of the scratch folder that may not be written.
    ScratchFile = 10,
    /// A file of the scratch folder that may be written.
    ScratchFileWrite = 11,
    /// A file of the scratch folder, and a place from which it is read.
    ScratchIn = 12,
    /// A file of the scratch folder, and the place at which it is written.
    ScratchOut = 13,
    /// A file of the scratch folder that is written at its end.
    ScratchOutEnd = 14,
}

impl Tag {
    /// The number that stands in the entry.
    pub fn number(self) -> u64 {
        self as u64
    }
}
