//! The writable folder as callers see it: files by number and name, under a quota.

ghost use Rattle.std.specs.Prelude.{◌≡◌, ◌+◌, ◌*◌, ◌≤◌, ◌<◌, ◌^◌, ◌++◌, All, List, ℕ, Some, None, IsSome, IfOk, IfSome, OnOk, OnErr, length, drop, option_map, replicate, true, []};
ghost use Rattle.std.specs.List.{splice};
ghost use Rattle.tree_table.specs.Scratches.{ScratchMap, blocks_of, empty_scratch, file_at, name_at, content_at, find_file, free_number, read_at, with_content, has_room, created, removed, renamed, resized, overwritten, sized, written};
ghost use Rattle.tree_table.specs.Trees.{IsShort};

use crate::pieces::{
    clear_bytes, create_file, has_room, read_file, remove_file, rename_file, replace_bytes,
    resize_file,
};
use crate::slot::Slot;
use crate::slots::{free_slots, place_free, place_named};
use crate::space::Space;
use std::alloc::Global;
use std::marker::Model;
use virt_base::NoMemory;

/// The quota has no room for the change, or every number has a file.
#[derive(Debug, Clone, Copy, PartialEq, Eq)]
pub struct InsufficientSpace;

/// Files by number and name in a number of blocks of memory, all of which is taken at the beginning. The bytes of a file stand
/// in one piece.
///
/// Contracts see the files as a map with a quota.
#[derive(Debug, Drop)]
pub struct Scratch {
    blocks: u32,
    slots: Vec<Slot>,
    space: Space,
}

impl Model for Scratch {
    ghost use Rattle.tree_table.specs.Scratches.{ScratchMap};
    ghost use Rattle.overlay_tree.specs.Pieces.{map_of, IsKept};

    ghost Value = { ScratchMap };

    ghost view = { λ s. map_of s.blocks s.slots.items s.space };

    ghost invariant = { λ s. IsKept s.blocks s.slots.items s.space };
}

impl Scratch {
    /// No files, of which there may be `files` in `blocks` blocks. This is the only call that takes memory.
    pub fn new(alloc: Global, blocks: u32, files: u32) -> Result<Scratch, NoMemory>
        ensures { IfOk result (λ scratch. scratch ≡ empty_scratch blocks files) }
    {
        let slots = free_slots(alloc, files)?;
        let space = Space::new(alloc, blocks)?;
        Ok(Scratch {
            blocks,
            slots,
            space,
        })
    }

    /// The number of the file of a name; none exactly where no file has it.
    pub fn find(&self, name: &[u8]) -> Option<u32>
        ensures { result ≡ find_file self.now name.now }
    {
        match place_named(&self.slots, name) {
            Some(number) => Some(number as u32),
            None => None,
        }
    }

    /// The name of the file of a number; none exactly where it has no file.
    pub fn name(&self, number: u32) -> Option<&[u8]>
        ensures value { option_map (λ n. n.now) result ≡ name_at self.now number }
        ensures short { IfSome result (λ n. IsShort n.now) }
    {
        let number = number as usize;
        if number < self.slots.len() {
            self.slots[number].name()
        } else {
            None
        }
    }

    /// The length of a file.
    pub fn size(&self, number: u32) -> u64
        requires { IsSome (file_at self.now number) }
        ensures { result ≡ length (content_at self.now number) }
    {
        self.slots[number as usize].len() as u64
    }

    /// Makes a file without bytes, which takes the least free number.
    ///
    /// # Errors
    ///
    /// `InsufficientSpace` exactly where every number has a file. All stays as it was.
    pub fn create(&mut self, name: &[u8]) -> Result<u32, InsufficientSpace>
        requires new { find_file self.old name.now ≡ None }
        requires short { IsShort name.now }
        ensures number { IfOk result (λ number. free_number self.old ≡ Some number) }
        ensures made { IfOk result (λ number. self.new ≡ created self.old number name.now) }
        ensures full { OnErr result (free_number self.old ≡ None) }
        ensures same { OnErr result (self.new ≡ self.old) }
    {
        match place_free(&self.slots) {
            Some(number) => {
                create_file(&mut self.slots, number, name);
                Ok(number as u32)
            }
            None => Err(InsufficientSpace),
        }
    }

    /// Whether the other files' blocks and those of `len` bytes are within the quota.
    fn has_room(&self, number: u32, len: u64) -> bool
        requires { IsSome (file_at self.now number) }
        ensures value { result ≡ has_room self.now number len }
        ensures few { result ≡ true → len < 2 ^ 48 }
    {
        has_room(&self.slots, self.blocks, number as usize, len)
    }

    /// Cuts a file, or grows it by zeros.
    fn resize(&mut self, number: u32, len: usize)
        requires live { IsSome (file_at self.old number) }
        requires fits { has_room self.old number len ≡ true }
        ensures { self.new ≡ with_content self.old number (resized (content_at self.old number) len) }
    {
        resize_file(&mut self.slots, &mut self.space, number as usize, len);
    }

    /// Takes a file away, whose number is free from then on.
    pub fn remove(&mut self, number: u32)
        requires { IsSome (file_at self.old number) }
        ensures { self.new ≡ removed self.old number }
    {
        remove_file(&mut self.slots, &mut self.space, number as usize);
    }

    /// Gives a file a name. Another file that has it is removed.
    pub fn rename(&mut self, number: u32, name: &[u8])
        requires live { IsSome (file_at self.old number) }
        requires short { IsShort name.now }
        ensures { self.new ≡ renamed self.old number name.now }
    {
        rename_file(&mut self.slots, &mut self.space, number as usize, name);
    }

    /// Gives a file a length: it is cut, or grown by zeros.
    ///
    /// # Errors
    ///
    /// `InsufficientSpace` exactly where the quota would be passed. All stays as it was.
    pub fn set_size(&mut self, number: u32, size: u64) -> Result<(), InsufficientSpace>
        requires { IsSome (file_at self.old number) }
        ensures ok { OnOk result (sized self.old number size ≡ Some self.new) }
        ensures full { OnErr result (sized self.old number size ≡ None) }
        ensures same { OnErr result (self.new ≡ self.old) }
    {
        if !self.has_room(number, size) {
            return Err(InsufficientSpace);
        }
        self.resize(number, size as usize);
        Ok(())
    }

    /// Cuts a file to nothing, which the quota always allows.
    pub fn truncate(&mut self, number: u32)
        requires { IsSome (file_at self.old number) }
        ensures { self.new ≡ with_content self.old number [] }
    {
        resize_file(&mut self.slots, &mut self.space, number as usize, 0);
    }

    /// Replaces the bytes of a file that is long enough.
    fn replace(&mut self, number: u32, at: usize, bytes: &[u8])
        requires live { IsSome (file_at self.old number) }
        requires long { at + length bytes.now ≤ length (content_at self.old number) }
        ensures { self.new ≡ with_content self.old number (splice (content_at self.old number) at (at + length bytes.now) bytes.now) }
    {
        replace_bytes(&self.slots, &mut self.space, number as usize, at, bytes);
    }

    /// Writes bytes from a place on into a file, which grows where it is shorter, with zeros before the bytes. No bytes
    /// change nothing.
    ///
    /// # Errors
    ///
    /// `InsufficientSpace` exactly where the quota would be passed. All stays as it was.
    pub fn write(&mut self, number: u32, at: u64, bytes: &[u8]) -> Result<(), InsufficientSpace>
        requires { IsSome (file_at self.old number) }
        ensures ok { OnOk result (written self.old number at bytes.now ≡ Some self.new) }
        ensures few { OnOk result (at + length bytes.now < 2 ^ 64) }
        ensures full { OnErr result (written self.old number at bytes.now ≡ None) }
        ensures same { OnErr result (self.new ≡ self.old) }
    {
        if bytes.is_empty() {
            return Ok(());
        }
        let end = at.saturating_add(bytes.len() as u64);
        let len = self.size(number).max(end);
        if !self.has_room(number, len) {
            return Err(InsufficientSpace);
        }
        self.resize(number, len as usize);
        self.replace(number, at as usize, bytes);
        Ok(())
    }

    /// Sets that many bytes of a file that is long enough to zero.
    fn clear(&mut self, number: u32, at: usize, len: usize)
        requires live { IsSome (file_at self.old number) }
        requires long { at + len ≤ length (content_at self.old number) }
        ensures { self.new ≡ with_content self.old number (splice (content_at self.old number) at (at + len) (replicate len 0)) }
    {
        clear_bytes(&self.slots, &mut self.space, number as usize, at, len);
    }

    /// Writes that many zeros from a place on into a file, as `write` does of bytes.
    ///
    /// # Errors
    ///
    /// `InsufficientSpace` exactly where the quota would be passed. All stays as it was.
    pub fn write_zeroes(&mut self, number: u32, at: u64, len: u64) -> Result<(), InsufficientSpace>
        requires { IsSome (file_at self.old number) }
        ensures ok { OnOk result (written self.old number at (replicate len 0) ≡ Some self.new) }
        ensures few { OnOk result (at + len < 2 ^ 64) }
        ensures full { OnErr result (written self.old number at (replicate len 0) ≡ None) }
        ensures same { OnErr result (self.new ≡ self.old) }
    {
        if len == 0 {
            return Ok(());
        }
        let end = at.saturating_add(len);
        let size = self.size(number).max(end);
        if !self.has_room(number, size) {
            return Err(InsufficientSpace);
        }
        self.resize(number, size as usize);
        self.clear(number, at as usize, len as usize);
        Ok(())
    }

    /// What files hold are bytes, as many as 64 bits can count, and so are the files: lists do not tell that themselves. It
    /// does nothing when it runs.
    pub fn contents_are_bytes(&self)
        ensures small { (number : ℕ) → All (λ b. b < 256) (content_at self.now number) }
        ensures count { (number : ℕ) → length (content_at self.now number) < 2 ^ 64 }
        ensures files { length self.now.files < 2 ^ 64 }
    {
        self.space.are_bytes();
    }

    /// Copies the bytes of a file from a place on to the front of `out`, as many as there are and fit, and says how many.
    pub fn read_into(&self, number: u32, at: u64, out: &mut [u8]) -> usize
        requires { IsSome (file_at self.now number) }
        ensures count { result ≡ length (read_at (content_at self.now number) at (length out.old)) }
        ensures read { out.new ≡ read_at (content_at self.now number) at (length out.old) ++ drop result out.old }
    {
        read_file(&self.slots, &self.space, number as usize, at, out)
    }
}
