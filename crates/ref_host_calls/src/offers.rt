//! The offers of `get-directories`: what a folder is, and what says which folders are given.

ghost use Rattle.std.specs.Prelude.{◌≡◌};
ghost use Rattle.ref_host_calls.specs.Places.{stands_for};

use policy_data::Policy;
use ref_answers::ListedTable;
use ref_rules::Content;
use tree_table::Trees;

/// What a folder is.
#[derive(Debug, Clone, Copy, PartialEq, Eq)]
pub enum Folder {
    /// One of the host, by its handle.
    Theirs(u32),
    /// The root of the tree at a place.
    Root(u32),
    /// The scratch folder.
    Scratch,
}

/// A folder that is given under a name, or a handle of the host that is dropped.
#[derive(Debug, Clone, Copy)]
pub enum Offer<'a> {
    Given(Folder, &'a str),
    Lost(u32),
}

/// What says which folders are given: the policy, its trees, and the listed interfaces.
#[derive(Debug, Clone, Copy)]
pub struct Folders<'a> {
    pub policy: &'a Policy,
    pub trees: &'a Trees,
    pub listed: &'a ListedTable,
}

impl Folder {
    /// What its handle stands for.
    pub fn content(self) -> Content
        ensures { result ≡ stands_for self }
    {
        match self {
            Folder::Theirs(id) => Content::Host(id),
            Folder::Root(place) => Content::Node(place),
            Folder::Scratch => Content::ScratchRoot,
        }
    }
}
