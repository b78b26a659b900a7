//! What handles of a kind can stand for.

use adapter_pass::{Kind, Tag};
use adapter_world::can_be_host;
use policy_data::Policy;
use std::alloc::Global;
use virt_base::NoMemory;

/// Contents of handles that rows tell apart.
#[derive(Clone, Copy, PartialEq, Eq, Debug)]
pub enum Family {
    Host,
    Node,
    FileAt,
    EmptyIn,
    Discard,
    Always,
    Entries,
    /// The scratch folder, and files of it.
    Scratch,
    ScratchEntries,
    ScratchIn,
    ScratchOut,
}

/// What there is under a policy: whether trees, and a scratch folder.
#[derive(Clone, Copy)]
pub struct Contents<'a> {
    pub policy: &'a Policy,
    pub trees: bool,
    pub scratch: bool,
}

// The contents of each kind but the host's.
fn virtual_families(kind: Kind) -> &'static [Family] {
    match kind {
        Kind::Pollable => &[Family::Always],
        Kind::InputStream => &[Family::EmptyIn, Family::FileAt, Family::ScratchIn],
        Kind::OutputStream => &[Family::Discard, Family::ScratchOut],
        Kind::Descriptor => &[Family::Node, Family::Scratch],
        Kind::DirectoryEntryStream => &[Family::Entries, Family::ScratchEntries],
        _ => &[],
    }
}

impl Contents<'_> {
    fn has(&self, family: Family) -> bool {
        match family {
            Family::Node | Family::FileAt | Family::Entries => self.trees,
            Family::Scratch | Family::ScratchEntries => self.scratch,
            Family::ScratchIn | Family::ScratchOut => self.scratch,
            _ => true,
        }
    }

    /// Those of a kind, by its number.
    pub fn of(&self, alloc: Global, kind: u32) -> Result<Vec<Family>, NoMemory> {
        let mut found = Vec::new(alloc);
        if can_be_host(self.policy, kind) {
            found.push(Family::Host)?;
        }
        if let Some(kind) = Kind::numbered(kind) {
            for family in virtual_families(kind) {
                if self.has(*family) {
                    found.push(*family)?;
                }
            }
        }
        Ok(found)
    }
}

impl Family {
    /// The tags of its entries.
    pub fn tags(self) -> &'static [Tag] {
        match self {
            Family::Host => &[Tag::Host],
            Family::Node => &[Tag::Node],
            Family::FileAt => &[Tag::FileAt],
            Family::EmptyIn => &[Tag::EmptyIn],
            Family::Discard => &[Tag::Discard],
            Family::Always => &[Tag::Always],
            Family::Entries => &[Tag::Entries],
            Family::Scratch => &[Tag::ScratchRoot, Tag::ScratchFile, Tag::ScratchFileWrite],
            Family::ScratchEntries => &[Tag::ScratchEntries],
            Family::ScratchIn => &[Tag::ScratchIn],
            Family::ScratchOut => &[Tag::ScratchOut, Tag::ScratchOutEnd],
        }
    }
}
