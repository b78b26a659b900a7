//! One number of a file: the name and the length of its file, with room for the longest name, so that files come and go without memory.

ghost use Rattle.std.specs.Prelude.{◌≡◌, ◌≤◌, ◌<◌, ◌*◌, ◌^◌, None, Some, IfOk, IfSome, is_none, length, option_map};
ghost use Rattle.tree_table.specs.Scratches.{blocks_of};
ghost use Rattle.overlay_tree.specs.Pieces.{Entry, entry_blocks, is_named, len_of, with_len};

use crate::bytes::{write, zero_bytes};
use std::alloc::Global;
use std::marker::Model;
use virt_base::NoMemory;

/// The bytes of a block.
pub const BLOCK: usize = 4096;

/// The most bytes of a name.
const NAME: usize = 255;

/// The number of a file, with room for a name. Contracts see the file's name and length, if it has one.
#[derive(Debug, Drop)]
pub struct Slot {
    name: Vec<u8>,
    named: usize,
    file: Option<usize>,
}

impl Model for Slot {
    ghost use Rattle.std.specs.Prelude.{Option};
    ghost use Rattle.overlay_tree.specs.Pieces.{Entry};

    ghost Value = { Option Entry };

    ghost use Rattle.overlay_tree.specs.Pieces.{entry_of, IsSlot};

    ghost view = { λ s. entry_of s.name.items s.named s.file };

    ghost invariant = { λ s. IsSlot s.name.items s.named s.file };
}

impl Slot {
    /// A number without a file. This is the only call that takes memory.
    pub fn new(alloc: Global) -> Result<Slot, NoMemory>
        ensures { IfOk result (λ slot. slot ≡ None) }
    {
        Ok(Slot {
            name: zero_bytes(alloc, NAME)?,
            named: 0,
            file: None,
        })
    }

    /// Whether there is no file.
    pub fn is_free(&self) -> bool
        ensures { result ≡ is_none self.now }
    {
        self.file.is_none()
    }

    /// Whether there is a file of this name.
    pub fn is_named(&self, name: &[u8]) -> bool
        ensures { result ≡ is_named name.now self.now }
    {
        self.file.is_some() && &self.name[..self.named] == name
    }

    #[tactic(auto, using(crate::proofs::PieceLemmas::len_within))]
    /// The length of the file; 0 where there is none.
    pub fn len(&self) -> usize
        ensures len { result ≡ len_of self.now }
        ensures few { result < 2 ^ 48 }
        ensures within { result ≤ entry_blocks self.now * 4096 }
    {
        self.file.unwrap_or(0)
    }

    /// How many blocks the file takes.
    pub fn blocks(&self) -> usize
        ensures { result ≡ entry_blocks self.now }
    {
        blocks_of(self.len())
    }

    /// The name of the file.
    pub fn name(&self) -> Option<&[u8]>
        ensures value { option_map (λ n. n.now) result ≡ option_map (λ e. e.name) self.now }
        ensures short { IfSome result (λ n. length n.now ≤ 255) }
    {
        match self.file {
            Some(_) => Some(&self.name[..self.named]),
            None => None,
        }
    }

    /// The file has this name and length.
    pub fn put(&mut self, name: &[u8], len: usize)
        requires short { length name.now ≤ 255 }
        requires few { len < 2 ^ 48 }
        ensures { self.new ≡ Some (record { name = name.now; len = len }) }
    {
        write(&mut self.name, 0, name);
        self.named = name.len();
        self.file = Some(len);
    }

    /// The file has this length, where there is one.
    pub fn resize(&mut self, len: usize)
        requires { len < 2 ^ 48 }
        ensures { self.new ≡ with_len len self.old }
    {
        if self.file.is_some() {
            self.file = Some(len);
        }
    }

    /// There is no file any more.
    pub fn clear(&mut self)
        ensures { self.new ≡ None }
    {
        self.file = None;
    }
}

#[tactic(auto, using(crate::proofs::PieceLemmas::within_blocks))]
/// How many blocks that many bytes take.
pub fn blocks_of(len: usize) -> usize
    requires { len < 2 ^ 48 }
    ensures value { result ≡ blocks_of len }
    ensures covers { len ≤ result * 4096 }
{
    (len + (BLOCK - 1)) / BLOCK
}
