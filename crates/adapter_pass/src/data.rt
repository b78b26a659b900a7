//! Static data in the making, and the texts and lists in it, by their places in the adapter's memory.

use crate::places::image_place;
use std::alloc::Global;
use virt_base::{Bytes, Items, NoMemory};

/// A text in the static data.
#[derive(Clone, Copy, Debug)]
pub struct TextAt {
    pub place: u32,
    pub length: u32,
}

/// A list in the static data: where it stands, and how many elements it has.
#[derive(Clone, Copy, Debug)]
pub struct ListAt {
    pub place: u32,
    pub count: u32,
}

/// Static data in the making. Its places are those of the adapter's memory; one that 32 bits don't hold stands as the greatest, and
/// no layout with so much static data fits.
#[derive(Drop)]
pub struct StaticData {
    base: u32,
    bytes: Vec<u8>,
}

fn capped(len: usize) -> u32 {
    u32::try_from(len).unwrap_or(u32::MAX)
}

impl StaticData {
    /// None, for slot tables of that many places.
    pub fn new(alloc: Global, slots: u32) -> StaticData {
        StaticData {
            base: image_place(slots),
            bytes: Vec::new(alloc),
        }
    }

    pub fn len(&self) -> usize {
        self.bytes.len()
    }

    /// Where the next byte will stand.
    pub fn place(&self) -> u32 {
        self.base.saturating_add(capped(self.bytes.len()))
    }

    /// Adds zeros up to a multiple of a number.
    pub fn align(&mut self, to: u32) -> Result<(), NoMemory> {
        let to = u32::max(to, 1);
        let over = self.place() % to;
        if over != 0 {
            for _ in over..to {
                self.bytes.push(0)?;
            }
        }
        Ok(())
    }

    /// Adds bytes, and says where they stand.
    pub fn put(&mut self, bytes: &[u8]) -> Result<u32, NoMemory> {
        let place = self.place();
        self.bytes.extend_from_slice(bytes)?;
        Ok(place)
    }

    /// Adds a number of 32 bits, the lowest byte first.
    pub fn put_word(&mut self, word: u32) -> Result<(), NoMemory> {
        self.put(&word.to_le_bytes())?;
        Ok(())
    }

    /// Adds a number of 64 bits, the lowest byte first.
    pub fn put_long(&mut self, long: u64) -> Result<(), NoMemory> {
        self.put(&long.to_le_bytes())?;
        Ok(())
    }

    /// Adds a text.
    pub fn put_text(&mut self, bytes: &[u8]) -> Result<TextAt, NoMemory> {
        let place = self.put(bytes)?;
        Ok(TextAt {
            place,
            length: capped(bytes.len()),
        })
    }

    pub fn into_bytes(self) -> Bytes {
        let StaticData { base: _, bytes } = self;
        Items::new(bytes)
    }
}
