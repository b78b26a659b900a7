//! What a live handle stands for: a handle of the host, a node, a stream, a pollable, or something of the scratch folder.

ghost use Rattle.std.specs.Prelude.{◌≡◌};
ghost use Rattle.ref_rules.specs.Contents.{open_file};

/// What a handle stands for. A node is its number in the table of the trees, and a scratch file its number there.
#[derive(Debug, Clone, Copy, PartialEq, Eq)]
pub enum Content {
    /// A handle of the host, by the host's number.
    Host(u32),
    /// A folder or a file of a tree.
    Node(u32),
    /// A stream over a file of a tree, and how far it has come.
    FileAt(u32, u64),
    /// An input without bytes.
    EmptyIn,
    /// An output that drops what it is given.
    Discard,
    /// A pollable that is always ready.
    Always,
    /// The entries of a folder from a place on.
    Entries(u32, u32),
    /// The scratch folder.
    ScratchRoot,
    /// The files of the scratch folder from a number on.
    ScratchEntries(u32),
    /// A file of the scratch folder, and whether it may be written.
    ScratchFile(u32, bool),
    /// A stream from a scratch file at a place.
    ScratchIn(u32, u64),
    /// A stream to a scratch file, at a place or at the end.
    ScratchOut(u32, Option<u64>),
}

/// A live handle: the number of its kind, and what it stands for.
#[derive(Debug, Clone, Copy, PartialEq, Eq)]
pub struct Handle {
    pub kind: u32,
    pub content: Content,
}

impl Content {
    /// The scratch file that is open by this; a listing holds none open.
    pub fn open_file(self) -> Option<u32>
        ensures { result ≡ open_file self }
    {
        match self {
            Content::ScratchFile(number, _) => Some(number),
            Content::ScratchIn(number, _) => Some(number),
            Content::ScratchOut(number, _) => Some(number),
            Content::Host(_)
            | Content::Node(_)
            | Content::FileAt(_, _)
            | Content::EmptyIn
            | Content::Discard
            | Content::Always => None,
            Content::Entries(_, _) | Content::ScratchRoot | Content::ScratchEntries(_) => None,
        }
    }
}
