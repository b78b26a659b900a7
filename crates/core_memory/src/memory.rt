//! A linear memory: what its instructions do (core WebAssembly, "Execution", "Memory Instructions").

ghost use Rattle.std.specs.Prelude.{◌≡◌, ◌+◌, ◌*◌, ◌≤◌, ◌<◌, ◌^◌, length, IfOk, IsTrue, Ok, ◌↔◌};
ghost use Rattle.std.specs.Bool.{OnTrue, OnFalse};
ghost use Rattle.core_memory.specs.Number.{IsWidth, bytes_of};
ghost use Rattle.core_memory.specs.Replaced.{repeated};
ghost use Rattle.core_memory.specs.Linear.{fresh, loaded, size, Grows, made_of, Writes, Copies, Moves, Reads};

use crate::bulk::{copy_all, fill_all, make_pages, write_all};
use crate::fault::StoreFault;
use crate::number::number_at;
use crate::page::{PAGE, Page};
use crate::pages::{add_pages, count_made, most_pages, read_slowly};
use crate::reading::read_all;
use std::alloc::Global;
use std::marker::Model;
use virt_base::{Bytes, Items, NoMemory, Trap};

/// A linear memory, whose pages of 65,536 bytes are made at the first write that touches them.
#[derive(Drop)]
pub struct Memory {
    pages: Vec<Page>,
    max: Option<u32>,
}

impl Model for Memory {
    ghost use Rattle.core_memory.specs.Linear.{Linear};

    ghost Value = { Linear };

    ghost use Rattle.std.specs.Prelude.{◌≡◌, ◌<◌, ◌^◌, length};
    ghost use Rattle.core_memory.specs.Pages.{linear, IsMemory};

    ghost view = { λ m. linear m.pages.items m.max };

    ghost invariant = { λ m. IsMemory m.pages.items };
}

impl Memory {
    /// A memory of `min` pages, of which none is made.
    #[tactic(auto, using(crate::proofs::Memories::linear_fresh, crate::proofs::Memories::memory_fresh))]
    pub fn new(alloc: Global, min: u32, max: Option<u32>) -> Result<Memory, NoMemory>
        ensures { IfOk result (λ m. m ≡ fresh min max) }
    {
        let mut pages = Vec::new(alloc);
        add_pages(&mut pages, alloc, min)?;
        Ok(Memory { pages, max })
    }

    /// The number of pages.
    #[tactic(auto, using(crate::proofs::Memories::linear_bytes, crate::proofs::Memories::linear_size, crate::proofs::Memories::linear_few))]
    pub fn size(&self) -> u32
        ensures size { result ≡ size self.now }
        ensures bytes { length self.now.bytes ≡ 65536 * result }
    {
        self.pages.len() as u32
    }

    /// The number of pages that are made.
    #[tactic(auto, using(crate::proofs::Memories::linear_made, crate::proofs::Memories::linear_few))]
    pub fn made(&self) -> u32
        ensures { result ≡ made_of self.now }
    {
        count_made(&self.pages)
    }

    /// The integer of `width` bytes at a place. `Trap` comes exactly where they pass the end.
    #[inline]
    #[tactic(auto, using(crate::proofs::Memories::loaded_page, crate::proofs::Memories::loaded_slowly, crate::proofs::Memories::loaded_past, crate::proofs::Memories::linear_few, crate::proofs::Memories::linear_bytes))]
    pub fn load(&self, at: u64, width: u8) -> Result<u64, Trap>
        requires { IsWidth width }
        ensures value { result ≡ loaded self.now at width }
        ensures fits { IfOk result (λ n. n < 256 ^ width) }
    {
        let index = at / PAGE as u64;
        if index < self.pages.len() as u64 {
            let bytes = self.pages[index as usize].bytes();
            let offset = (at % PAGE as u64) as usize;
            if offset + width as usize <= bytes.len() {
                return Ok(number_at(bytes, offset, width));
            }
        }
        if !self.holds(at, width as u64) {
            return Err(Trap);
        }
        Ok(read_slowly(&self.pages, at as usize, width))
    }

    /// `len` bytes from a place on. `Trap` comes exactly where they pass the end.
    #[tactic(auto, using(crate::proofs::Memories::linear_bytes, crate::proofs::Memories::linear_range, crate::proofs::Memories::linear_few))]
    pub fn read(&self, alloc: Global, at: u64, len: u64) -> Result<Bytes, StoreFault>
        ensures { Reads self.now at len result }
    {
        if !self.holds(at, len) {
            return Err(StoreFault::Trap);
        }
        Ok(Items::new(read_all(&self.pages, alloc, at as usize, len as usize)?))
    }

    /// Writes the lowest `width` bytes of an integer at a place. `Trap` comes exactly where they pass the end.
    #[inline]
    pub fn store(&mut self, alloc: Global, at: u64, width: u8, value: u64) -> Result<(), StoreFault>
        requires { IsWidth width }
        ensures { Writes self.old self.new at (bytes_of width value) result }
    {
        if self.store_quickly(at, width, value) {
            return Ok(());
        }
        self.store_slowly(alloc, at, width, value)
    }

    // Writes bytes that lie on one page, if it is made.
    #[tactic(auto, using(crate::proofs::Memories::memory_stored))]
    #[inline]
    fn store_quickly(&mut self, at: u64, width: u8, value: u64) -> bool
        requires { IsWidth width }
        ensures quick { OnTrue result (Writes self.old self.new at (bytes_of width value) (Ok tt)) }
        ensures slow { OnFalse result (self.new ≡ self.old) }
    {
        let index = at / PAGE as u64;
        let offset = (at % PAGE as u64) as usize;
        if index < self.pages.len() as u64
            && offset + width as usize <= PAGE
            && self.pages[index as usize].is_made()
        {
            self.pages[index as usize].store(offset, width, value);
            return true;
        }
        false
    }

    #[tactic(auto, using(crate::proofs::Memories::written_low))]
    fn store_slowly(
        &mut self,
        alloc: Global,
        at: u64,
        width: u8,
        value: u64,
    ) -> Result<(), StoreFault>
        requires { IsWidth width }
        ensures { Writes self.old self.new at (bytes_of width value) result }
    {
        let bytes = value.to_le_bytes();
        self.write(alloc, at, &bytes[..width as usize])
    }

    /// Writes bytes at a place. `Trap` comes exactly where they pass the end.
    #[tactic(auto, using(crate::proofs::Memories::written_pages, crate::proofs::Memories::written_none, crate::proofs::Memories::pages_run_out, crate::proofs::Memories::memory_made, crate::proofs::Memories::memory_edited, crate::proofs::Memories::linear_bytes, crate::proofs::Memories::linear_few))]
    pub fn write(&mut self, alloc: Global, at: u64, bytes: &[u8]) -> Result<(), StoreFault>
        ensures { Writes self.old self.new at bytes.now result }
    {
        let len = bytes.len() as u64;
        if !self.holds(at, len) {
            return Err(StoreFault::Trap);
        }
        if len == 0 {
            return Ok(());
        }
        make_pages(&mut self.pages, alloc, at as usize, len as usize)?;
        write_all(&mut self.pages, at as usize, bytes);
        Ok(())
    }

    /// Sets bytes to one value. `Trap` comes exactly where they pass the end.
    #[tactic(auto, using(crate::proofs::Memories::filled_pages, crate::proofs::Memories::filled_none, crate::proofs::Memories::filled_run_out, crate::proofs::Sequence::length_repeated, crate::proofs::Memories::memory_made, crate::proofs::Memories::memory_edited, crate::proofs::Memories::linear_bytes, crate::proofs::Memories::linear_few))]
    pub fn fill(&mut self, alloc: Global, at: u64, value: u8, len: u64) -> Result<(), StoreFault>
        ensures { Writes self.old self.new at (repeated len value) result }
    {
        if !self.holds(at, len) {
            return Err(StoreFault::Trap);
        }
        if len == 0 {
            return Ok(());
        }
        make_pages(&mut self.pages, alloc, at as usize, len as usize)?;
        fill_all(&mut self.pages, at as usize, value, len as usize);
        Ok(())
    }

    /// Copies bytes, as if by way of another list. `Trap` comes exactly where the source or the target passes the end.
    #[tactic(auto, using(crate::proofs::Memories::copied_pages, crate::proofs::Memories::copied_none, crate::proofs::Memories::pages_run_out, crate::proofs::Memories::memory_made, crate::proofs::Memories::memory_edited, crate::proofs::Memories::linear_bytes, crate::proofs::Memories::linear_few))]
    pub fn copy(&mut self, alloc: Global, to: u64, from: u64, len: u64) -> Result<(), StoreFault>
        ensures { Copies self.old self.new to from len result }
    {
        if !self.holds(from, len) {
            return Err(StoreFault::Trap);
        }
        if !self.holds(to, len) {
            return Err(StoreFault::Trap);
        }
        if len == 0 {
            return Ok(());
        }
        make_pages(&mut self.pages, alloc, to as usize, len as usize)?;
        copy_all(
            &mut self.pages,
            alloc,
            to as usize,
            from as usize,
            len as usize,
        );
        Ok(())
    }

    /// Writes bytes of a source. `Trap` comes exactly where the part of the source or the target passes the end.
    #[tactic(auto, using(crate::proofs::Memories::moved, crate::proofs::Memories::moved_past))]
    pub fn init(
        &mut self,
        alloc: Global,
        to: u64,
        source: &[u8],
        from: u64,
        len: u64,
    ) -> Result<(), StoreFault>
        ensures { Moves source.now self.old self.new to from len result }
    {
        if !fits(source.len() as u64, from, len) {
            return Err(StoreFault::Trap);
        }
        let end = from as usize + len as usize;
        self.write(alloc, to, &source[from as usize..end])
    }

    /// Adds pages, of which none is made: the old size, or -1 exactly where the maximum or 4,096 pages would be passed.
    #[tactic(auto, using(crate::proofs::Memories::grow_no, crate::proofs::Memories::grow_yes, crate::proofs::Memories::linear_grown, crate::proofs::Memories::memory_grown, crate::proofs::Memories::linear_size, crate::proofs::Memories::linear_few))]
    pub fn grow(&mut self, alloc: Global, pages: u32) -> Result<i32, NoMemory>
        ensures { Grows self.old self.new pages result }
    {
        let old = self.pages.len() as u64;
        if old + pages as u64 > most_pages(self.max) as u64 {
            return Ok(-1);
        }
        add_pages(&mut self.pages, alloc, pages)?;
        Ok(old as i32)
    }

    #[tactic(auto, using(crate::proofs::Memories::linear_bytes, crate::proofs::Memories::linear_short, crate::proofs::Memories::linear_few))]
    fn holds(&self, at: u64, len: u64) -> bool
        ensures holds { IsTrue result ↔ (at + len ≤ length self.now.bytes) }
        ensures bytes { length self.now.bytes < 2 ^ 48 }
    {
        fits(self.pages.len() as u64 * PAGE as u64, at, len)
    }
}

// A place and a length do not pass the end.
fn fits(end: u64, at: u64, len: u64) -> bool
    ensures { IsTrue result ↔ (at + len ≤ end) }
{
    at <= end && len <= end - at
}
