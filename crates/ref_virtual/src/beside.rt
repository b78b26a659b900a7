//! The other one of two descriptors, where the first is of the scratch folder: the folder, a file of it, or neither.

ghost use Rattle.std.specs.Prelude.{◌≡◌};
ghost use Rattle.ref_virtual.specs.Besides.{beside_of, is_root, is_file};

use ref_rules::Content;

/// The other one of two descriptors.
#[derive(Debug, Clone, Copy, PartialEq, Eq)]
pub enum Beside {
    /// The scratch folder.
    Root,
    /// A file of it.
    File(u32),
    /// None of these.
    Elsewhere,
}

pub fn beside_of(content: Content) -> Beside
    ensures { result ≡ beside_of content }
{
    match content {
        Content::ScratchRoot => Beside::Root,
        Content::ScratchFile(file, _) => Beside::File(file),
        Content::Host(_)
        | Content::Node(_)
        | Content::FileAt(_, _)
        | Content::EmptyIn
        | Content::Discard
        | Content::Always => Beside::Elsewhere,
        Content::Entries(_, _)
        | Content::ScratchEntries(_)
        | Content::ScratchIn(_, _)
        | Content::ScratchOut(_, _) => Beside::Elsewhere,
    }
}

pub fn is_root(beside: Beside) -> bool
    ensures { result ≡ is_root beside }
{
    match beside {
        Beside::Root => true,
        Beside::File(_) => false,
        Beside::Elsewhere => false,
    }
}

/// Whether it is this file.
pub fn is_file(beside: Beside, file: u32) -> bool
    ensures { result ≡ is_file beside file }
{
    match beside {
        Beside::File(other) => file == other,
        Beside::Root => false,
        Beside::Elsewhere => false,
    }
}
