//! Bytes with a room for which memory is taken beforehand, so that no later append runs out of memory.

ghost use Rattle.std.specs.Prelude.{◌≡◌, ◌+◌, [], length, max, nat_le, OnOk, OnErr};
ghost use Rattle.outside.specs.Buffer.{fill};

use std::alloc::Global;
use std::marker::Model;
use virt_base::NoMemory;

/// Bytes with a room that they may fill, for which no memory is taken later.
#[derive(Drop)]
pub struct Buffer {
    bytes: Vec<u8>,
    room: usize,
}

impl Model for Buffer {
    ghost use Rattle.std.specs.Prelude.{◌≤◌, vec_len, vec_capacity};
    ghost use Rattle.outside.specs.Buffer.{Filled};

    ghost Value = { Filled };

    ghost view = { λ b. record { bytes = b.bytes.items; room = b.room } };

    ghost invariant = { λ b. (vec_len b.bytes ≤ b.room) × (b.room ≤ vec_capacity b.bytes) };
}

impl Buffer {
    pub fn new(alloc: Global) -> Buffer
        ensures { result ≡ record { bytes = []; room = 0 } }
    {
        Buffer {
            bytes: Vec::new(alloc),
            room: 0,
        }
    }

    /// The bytes, with no room for more.
    pub fn full(bytes: Vec<u8>) -> Buffer
        ensures { result ≡ record { bytes = bytes.items; room = length bytes.items } }
    {
        let room = bytes.len();
        Buffer { bytes, room }
    }

    pub fn as_slice(&self) -> &[u8]
        ensures { result.now ≡ self.now.bytes }
    {
        self.bytes.as_slice()
    }

    /// Makes room for `total` bytes in all.
    pub fn reserve(&mut self, total: usize) -> Result<(), NoMemory>
        ensures ok { OnOk result (self.new ≡ record self.old { room = max self.old.room total }) }
        ensures err { OnErr result (self.new ≡ self.old) }
    {
        let len = self.bytes.len();
        if total > self.room {
            self.bytes.reserve(total - len)?;
            self.room = total;
        }
        Ok(())
    }

    pub fn clear(&mut self)
        ensures { self.new ≡ record self.old { bytes = [] } }
    {
        self.bytes.clear();
    }

    /// Takes the bytes that there is room for, and says whether that is all.
    pub fn append(&mut self, bytes: &[u8]) -> bool
        ensures all { result ≡ nat_le (length self.old.bytes + length bytes.now) self.old.room }
        ensures filled { self.new ≡ fill self.old bytes.now }
    {
        let spare = self.room - self.bytes.len();
        let count = spare.min(bytes.len());
        match self.bytes.extend_from_slice(&bytes[..count]) {
            Ok(()) => {}
            Err(_) => unreachable!(),
        }
        count == bytes.len()
    }
}
