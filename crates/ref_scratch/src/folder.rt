//! The scratch folder with names that are text: files by number, with a quota of blocks, over `overlay_tree`, whose names are bytes.

ghost use Rattle.std.specs.Prelude.{◌≡◌, ◌+◌, ◌<◌, ◌^◌, ℕ, All, Some, None, [], IsSome, IsUtf8, IfOk, IfSome, OnOk, OnErr, is_some, length, replicate, unwrap_or};
ghost use Rattle.tree_table.specs.Scratches.{empty_scratch, file_at, name_at, content_at, find_file, free_number, read_at, created, removed, renamed, sized, written, with_content};
ghost use Rattle.tree_table.specs.Trees.{IsShort};

use overlay_tree::{InsufficientSpace, Scratch};
use std::alloc::Global;
use std::marker::Model;
use virt_base::{NoMemory, Text, TextFault};

/// The scratch folder, whose names are text.
///
/// Contracts see its files as a map with a quota.
#[derive(Debug, Drop)]
pub struct Folder {
    scratch: Scratch,
}

impl Model for Folder {
    ghost use Rattle.tree_table.specs.Scratches.{ScratchMap};
    ghost use Rattle.ref_scratch.specs.Texts.{AreTexts};

    ghost Value = { ScratchMap };

    ghost view = { λ f. f.scratch };

    ghost invariant = { λ f. AreTexts f.scratch };
}

/// A copy of a name that is text.
fn text_of(alloc: Global, name: &[u8]) -> Result<Text, NoMemory>
    requires { IsUtf8 name.now }
    ensures { IfOk result (λ text. text ≡ name.now) }
{
    match Text::new(alloc, name) {
        Ok(text) => Ok(text),
        Err(TextFault::NoMemory) => Err(NoMemory),
        Err(TextFault::NotUtf8) => unreachable!(),
    }
}

impl Folder {
    /// No files, of which there may be that many in that many blocks. This is the only call that takes memory for files.
    pub fn new(alloc: Global, blocks: u32, files: u32) -> Result<Folder, NoMemory>
        ensures { IfOk result (λ folder. folder ≡ empty_scratch blocks files) }
    {
        let scratch = Scratch::new(alloc, blocks, files)?;
        Ok(Folder { scratch })
    }

    /// The number of the file of a name.
    pub fn find(&self, name: &str) -> Option<u32>
        ensures value { result ≡ find_file self.now name.now }
        ensures inside { IfSome result (λ n. n < length self.now.files) }
        ensures there { IfSome result (λ n. IsSome (file_at self.now n)) }
    {
        self.scratch.find(name.as_bytes())
    }

    /// The name of the file of a number; none exactly where it has no file.
    pub fn name(&self, alloc: Global, number: u32) -> Result<Option<Text>, NoMemory>
        ensures value { IfOk result (λ name. name ≡ name_at self.now number) }
        ensures short { IfOk result (λ name. IfSome name (λ n. IsShort n)) }
    {
        match self.scratch.name(number) {
            Some(name) => Ok(Some(text_of(alloc, name)?)),
            None => Ok(None),
        }
    }

    /// Whether a number has a file.
    pub fn is_there(&self, number: u32) -> bool
        ensures { result ≡ is_some (file_at self.now number) }
    {
        self.scratch.name(number).is_some()
    }

    /// The length of a file.
    pub fn size(&self, number: u32) -> u64
        requires { IsSome (file_at self.now number) }
        ensures { result ≡ length (content_at self.now number) }
    {
        self.scratch.size(number)
    }

    /// What files hold are bytes, as many as 64 bits can count, and so are the files: lists do not tell that themselves. It
    /// does nothing when it runs.
    pub fn contents_are_bytes(&self)
        ensures small { (number : ℕ) → All (λ b. b < 256) (content_at self.now number) }
        ensures count { (number : ℕ) → length (content_at self.now number) < 2 ^ 64 }
        ensures files { length self.now.files < 2 ^ 64 }
    {
        self.scratch.contents_are_bytes();
    }

    /// The bytes of a file from a place on, that many at most.
    pub fn read(
        &self,
        alloc: Global,
        number: u32,
        place: u64,
        len: u64,
    ) -> Result<Vec<u8>, NoMemory>
        requires { IsSome (file_at self.now number) }
        ensures { IfOk result (λ bytes. bytes.items ≡ read_at (content_at self.now number) place len) }
    {
        let left = self.scratch.size(number).saturating_sub(place);
        let count = len.min(left) as usize;
        let mut read: Vec<u8> = vec![in alloc; 0; count]?;
        self.scratch.read_into(number, place, read.as_mut_slice());
        Ok(read)
    }

    /// Makes a file without bytes, which takes the least free number.
    pub fn create(&mut self, name: &str) -> Result<u32, InsufficientSpace>
        requires new { find_file self.old name.now ≡ None }
        requires short { IsShort name.now }
        ensures number { IfOk result (λ number. free_number self.old ≡ Some number) }
        ensures made { IfOk result (λ number. self.new ≡ created self.old number name.now) }
        ensures full { OnErr result (free_number self.old ≡ None) }
        ensures same { OnErr result (self.new ≡ self.old) }
    {
        self.scratch.create(name.as_bytes())
    }

    /// Takes a file away.
    pub fn remove(&mut self, number: u32)
        requires { IsSome (file_at self.old number) }
        ensures { self.new ≡ removed self.old number }
    {
        self.scratch.remove(number);
    }

    /// Gives a file a name. Another file that has it is removed.
    pub fn rename(&mut self, number: u32, name: &str)
        requires live { IsSome (file_at self.old number) }
        requires short { IsShort name.now }
        ensures { self.new ≡ renamed self.old number name.now }
    {
        self.scratch.rename(number, name.as_bytes());
    }

    /// Gives a file the name of another, which is removed.
    pub fn take_name(&mut self, alloc: Global, number: u32, other: u32) -> Result<(), NoMemory>
        requires live { IsSome (file_at self.old number) }
        requires there { IsSome (file_at self.old other) }
        ensures { OnOk result (self.new ≡ renamed self.old number (unwrap_or (name_at self.old other) [])) }
    {
        match self.name(alloc, other)? {
            Some(name) => {
                self.rename(number, name.as_str());
                Ok(())
            }
            None => unreachable!(),
        }
    }

    /// Cuts a file to nothing.
    pub fn truncate(&mut self, number: u32)
        requires { IsSome (file_at self.old number) }
        ensures { self.new ≡ with_content self.old number [] }
    {
        self.scratch.truncate(number);
    }

    /// Gives a file a length.
    pub fn set_size(&mut self, number: u32, size: u64) -> Result<(), InsufficientSpace>
        requires { IsSome (file_at self.old number) }
        ensures ok { OnOk result (sized self.old number size ≡ Some self.new) }
        ensures full { OnErr result (sized self.old number size ≡ None) }
        ensures same { OnErr result (self.new ≡ self.old) }
    {
        self.scratch.set_size(number, size)
    }

    /// Writes bytes into a file.
    pub fn write(&mut self, number: u32, at: u64, bytes: &[u8]) -> Result<(), InsufficientSpace>
        requires { IsSome (file_at self.old number) }
        ensures ok { OnOk result (written self.old number at bytes.now ≡ Some self.new) }
        ensures few { OnOk result (at + length bytes.now < 2 ^ 64) }
        ensures full { OnErr result (written self.old number at bytes.now ≡ None) }
        ensures same { OnErr result (self.new ≡ self.old) }
    {
        self.scratch.write(number, at, bytes)
    }

    /// Writes that many zeros into a file.
    pub fn write_zeroes(&mut self, number: u32, at: u64, len: u64) -> Result<(), InsufficientSpace>
        requires { IsSome (file_at self.old number) }
        ensures ok { OnOk result (written self.old number at (replicate len 0) ≡ Some self.new) }
        ensures few { OnOk result (at + len < 2 ^ 64) }
        ensures full { OnErr result (written self.old number at (replicate len 0) ≡ None) }
        ensures same { OnErr result (self.new ≡ self.old) }
    {
        self.scratch.write_zeroes(number, at, len)
    }
}
